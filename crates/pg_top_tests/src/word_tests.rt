//! The words of the command line.

use crate::running::{PATH, run, words_of};
use pg_base::Status;
use std::test::Fail;

#[test]
fn the_words_of_a_search_may_stand_in_any_order(rt: HostRuntime) -> Result<(), Fail> {
    let alloc = rt.alloc();
    for line in [
        "bfs B --source 1 ",
        "bfs B --source=01 ",
        "bfs --source 1 B ",
        "--source=1 bfs B ",
        "--source 1 bfs -- B ",
        "bfs B --source 1 -- ",
    ] {
        let words = words_of(alloc, line)?;
        let seen = run(&rt, &words, PATH, Vec::new(alloc), Vec::new(alloc))?;
        assert_eq!(rt; seen.status, Status::Ok);
        assert_eq!(rt; seen.out.text(), b"0\n1\n2\n".as_slice());
        assert_eq!(rt; seen.errs.text(), b"".as_slice());
    }
    Ok(())
}

#[test]
fn words_that_are_no_command_line_are_refused(rt: HostRuntime) -> Result<(), Fail> {
    let alloc = rt.alloc();
    for line in [
        "",
        "bfs B ",
        "bfs --source 1 ",
        "bfs B --source ",
        "bfs B --source x ",
        "bfs B --source -1 ",
        "bfs B --source -- 1 ",
        "bfs B --source 4294967296 ",
        "bfs B --source 1 --source 1 ",
        "bfs B --sources 1 ",
        "bfs -B --source 1 ",
        "bfs B B --source 1 ",
        "bfs B --source 1 --delta 4 ",
        "bfs B --source 1 --ranks 33 ",
        "components B --source 1 ",
        "sssp B --source 1 --delta 0 ",
        "bfs B --source 1 --threads 0 ",
        "forest B --source 1 ",
        "colour B --delta 4 ",
        "grid --width 2 --height 2 ",
        "grid B --width 2 --height 2 --seed 7 ",
        "grid --width 2 --height 2 --seed 7 --source 1 ",
        "grid --width 2 --height 2 --seed 7 --parts B ",
        "grid --width 2048 --height 1024 --seed 7 ",
        "--help ",
    ] {
        let words = words_of(alloc, line)?;
        let seen = run(&rt, &words, PATH, Vec::new(alloc), Vec::new(alloc))?;
        assert_eq!(rt; seen.status, Status::BadWords);
        assert_eq!(rt; seen.out.text(), b"".as_slice());
        assert_eq!(rt; seen.errs.text(), b"bad words\n".as_slice());
    }
    Ok(())
}
