//! Least spanning forests.

use crate::running::{MESH, WEIGHTED, run};
use pg_base::Status;
use std::test::Fail;

#[test]
fn a_forest_goes_by_weight_and_then_by_its_ends(rt: HostRuntime) -> Result<(), Fail> {
    let alloc = rt.alloc();
    for (file, text) in [
        (
            "3 3 001\n2 4 3 4\n1 4 3 4\n1 4 2 4\n",
            "1 2 4\n1 3 4\ntotal 8\n",
        ),
        (MESH, "1 2 1\n1 3 1\n1 5 1\n2 4 1\n4 6 1\n4 7 1\ntotal 6\n"),
        ("3 1 011 2\n7 0 2 9\n1 1 1 9\n4 4\n", "1 2 9\ntotal 9\n"),
        ("0 0\n", "total 0\n"),
        ("3 0\n\n\n\n", "total 0\n"),
    ] {
        for ranks in ["1", "2", "7"] {
            let words = ["forest", "B", "--ranks", ranks];
            let seen = run(&rt, &words, file, Vec::new(alloc), Vec::new(alloc))?;
            assert_eq!(rt; seen.status, Status::Ok);
            assert_eq!(rt; seen.out.text(), text.as_bytes(), "{file} {ranks}");
        }
    }
    Ok(())
}

#[test]
fn a_failed_write_leaves_a_front_of_a_forest(rt: HostRuntime) -> Result<(), Fail> {
    let alloc = rt.alloc();
    let words = ["forest", "B"];
    for (call, bytes, text) in [
        (1, 0, ""),
        (2, 3, "1 2 5\n2 3"),
        (3, 5, "1 2 5\n2 3 2\ntotal"),
    ] {
        let failing = vec![in alloc; (call, bytes)]?;
        let seen = run(&rt, &words, WEIGHTED, Vec::new(alloc), failing)?;
        assert_eq!(rt; seen.status, Status::WriteFault);
        assert_eq!(rt; seen.out.text(), text.as_bytes());
        assert_eq!(rt; seen.errs.text(), b"cannot write\n".as_slice());
    }
    Ok(())
}
