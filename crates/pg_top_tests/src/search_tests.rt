//! Searches, least weights and components over sources and sinks in memory.

use crate::running::{FOREST, LONG_PATH, MESH, PATH, WEIGHTED, WEIGHTS, run, search, words_of};
use pg_base::Status;
use std::test::Fail;

#[test]
fn a_search_prints_the_least_number_of_arcs_to_each_vertex(rt: HostRuntime) -> Result<(), Fail> {
    let cases = [
        (PATH, "1", "0\n1\n2\n"),
        (PATH, "2", "1\n0\n1\n"),
        (MESH, "1", "0\n1\n1\n2\n1\n2\n3\n"),
        (LONG_PATH, "6", "5\n4\n3\n2\n1\n0\n"),
        (WEIGHTED, "1", "0\n1\n2\n-\n"),
        (
            "% by hand\r\n2 1\r\n% vertex 1\r\n2\r\n1\r\n% end\r\n\r\n",
            "1",
            "0\n1\n",
        ),
        ("3 1 011 2\n7 0 2 9\n1 1 1 9\n4 4\n", "2", "1\n0\n-\n"),
        ("4 2\r\n2\r\n\t1  3\r\n2\n\n \n", "1", "0\n1\n2\n-\n"),
    ];
    for (file, source, text) in cases {
        let seen = search(&rt, file, source)?;
        assert_eq!(rt; seen.status, Status::Ok);
        assert_eq!(rt; seen.out.text(), text.as_bytes());
        assert_eq!(rt; seen.errs.text(), b"".as_slice());
    }
    Ok(())
}

#[test]
fn a_source_that_is_no_vertex_is_refused(rt: HostRuntime) -> Result<(), Fail> {
    let cases = [
        (PATH, "0", "source 0: not in the graph\n"),
        (PATH, "4", "source 4: not in the graph\n"),
        (WEIGHTED, "0", "source 0: not in the graph\n"),
        (WEIGHTED, "5", "source 5: not in the graph\n"),
        ("0 0\n", "1", "source 1: not in the graph\n"),
    ];
    for (file, source, line) in cases {
        let seen = search(&rt, file, source)?;
        assert_eq!(rt; seen.status, Status::BadSource);
        assert_eq!(rt; seen.out.text(), b"".as_slice());
        assert_eq!(rt; seen.errs.text(), line.as_bytes());
    }
    Ok(())
}

#[test]
fn a_weight_may_be_the_greatest_number_of_32_bits(rt: HostRuntime) -> Result<(), Fail> {
    let alloc = rt.alloc();
    let file = "2 1 1\n2 4294967295\n1 4294967295\n";
    let words = ["sssp", "B", "--source", "2"];
    let seen = run(&rt, &words, file, Vec::new(alloc), Vec::new(alloc))?;
    assert_eq!(rt; seen.status, Status::Ok);
    assert_eq!(rt; seen.out.text(), b"4294967295\n0\n".as_slice());
    Ok(())
}

#[test]
fn components_of_no_vertex_print_nothing(rt: HostRuntime) -> Result<(), Fail> {
    let alloc = rt.alloc();
    let words = ["components", "B", "--ranks", "3"];
    let seen = run(&rt, &words, "0 0\n", Vec::new(alloc), Vec::new(alloc))?;
    assert_eq!(rt; seen.status, Status::Ok);
    assert_eq!(rt; seen.out.text(), b"".as_slice());
    Ok(())
}

/// Two edges of weight 1 undercut one of weight 10.
const DETOUR: &str = "3 3 1\n2 10 3 1\n1 10 3 1\n1 1 2 1\n";

#[test]
fn every_number_of_ranks_and_every_capacity_prints_the_same(rt: HostRuntime) -> Result<(), Fail> {
    let alloc = rt.alloc();
    for (line, file, text) in [
        ("bfs B --source 2 ", PATH, "1\n0\n1\n"),
        ("bfs B --source 1 ", MESH, "0\n1\n1\n2\n1\n2\n3\n"),
        ("bfs B --source 6 ", LONG_PATH, "5\n4\n3\n2\n1\n0\n"),
        ("bfs B --source 1 ", WEIGHTED, "0\n1\n2\n-\n"),
        ("sssp B --source 1 ", WEIGHTED, WEIGHTS),
        ("sssp B --source 1 --delta 1 ", DETOUR, "0\n2\n1\n"),
        ("sssp B --source 1 --delta 5 ", DETOUR, "0\n2\n1\n"),
        ("sssp B --source 1 --delta 4294967295 ", DETOUR, "0\n2\n1\n"),
        ("components B ", WEIGHTED, "1\n1\n1\n4\n"),
        ("components B ", LONG_PATH, "1\n1\n1\n1\n1\n1\n"),
        ("forest B ", WEIGHTED, FOREST),
        ("forest B ", DETOUR, "1 3 1\n2 3 1\ntotal 2\n"),
    ] {
        for ranks in ["1", "2", "3", "7", "32"] {
            for capacity in ["1", "1024"] {
                let mut words = words_of(alloc, line)?;
                for word in ["--ranks", ranks, "--capacity", capacity] {
                    words.push(word)?;
                }
                let seen = run(&rt, &words, file, Vec::new(alloc), Vec::new(alloc))?;
                assert_eq!(rt; seen.status, Status::Ok);
                assert_eq!(rt;
                    seen.out.text(),
                    text.as_bytes(),
                    "{line} {ranks} {capacity}"
                );
            }
        }
    }
    Ok(())
}
