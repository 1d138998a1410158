//! Vertices divided by a partition file.

use crate::running::{FOREST, WEIGHTED, WEIGHTS, run_over, words_of};
use pg_base::{OpenGate, Status};
use std::test::Fail;

#[test]
fn a_partition_file_says_who_owns_which_vertex(rt: HostRuntime) -> Result<(), Fail> {
    let alloc = rt.alloc();
    for (line, text) in [
        ("bfs B --source 1 --ranks 4 --parts P ", "0\n1\n2\n-\n"),
        ("sssp B --source 1 --ranks 4 --parts P ", WEIGHTS),
        (
            "components B --parts P --ranks 4 --capacity 1 ",
            "1\n1\n1\n4\n",
        ),
        ("forest B --ranks 4 --parts P ", FOREST),
    ] {
        for parts in ["0\n1\n3\n0\n", "3\n3\n3\n3\n", "% owners\n2\n0\n2\n1\n \n"] {
            let named = [("B", WEIGHTED), ("P", parts)];
            let words = words_of(alloc, line)?;
            let seen = run_over(
                &rt,
                &words,
                &named,
                Vec::new(alloc),
                Vec::new(alloc),
                &OpenGate,
            )?;
            assert_eq!(rt; seen.status, Status::Ok);
            assert_eq!(rt; seen.out.text(), text.as_bytes(), "{line} {parts}");
            assert_eq!(rt; seen.errs.text(), b"".as_slice());
        }
    }
    Ok(())
}
