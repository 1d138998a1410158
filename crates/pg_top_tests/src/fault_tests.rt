//! Faults of files and streams, and which of several is told.

use crate::running::{PATH, WEIGHTED, run, run_over, search};
use pg_base::{OpenGate, Status};
use std::test::Fail;

#[test]
fn a_malformed_file_is_refused_with_its_first_faulty_line(rt: HostRuntime) -> Result<(), Fail> {
    let cases = [
        ("", "line 1: NoHeader\n"),
        ("%a\n%b\n", "line 3: NoHeader\n"),
        ("1\n\n", "line 1: HeaderWords\n"),
        ("3 2\n2\n1 x\n2\n", "line 3: BadNumber\n"),
        ("1048577 0\n", "line 1: OverLimit\n"),
        ("1 0 2\n\n", "line 1: BadFormat\n"),
        ("3 2 1\n2\n1 3\n2\n", "line 2: ShortLine\n"),
        ("3 2\n2\n1 4\n2\n", "line 3: OutOfRange\n"),
        ("1 1\n1\n", "line 2: SelfEdge\n"),
        ("2 1\n2 2 x\n1\n", "line 2: Repeated\n"),
        ("2 1 1\n2 0\n1 0\n", "line 2: ZeroWeight\n"),
        ("3 1\n2\n1\n", "line 4: MissingLines\n"),
        ("2 1\n2\n1\n3\n", "line 4: ExtraText\n"),
        ("%\n2 2\n2\n1\n", "line 2: WrongCount\n"),
        ("3 1\n2\n%\n3\n\n", "line 2: NoMirror\n"),
        ("2 1 1\n2 5\n1 6\n", "line 2: MirrorWeight\n"),
    ];
    for (file, line) in cases {
        let seen = search(&rt, file, "1")?;
        assert_eq!(rt; seen.status, Status::BadGraph);
        assert_eq!(rt; seen.out.text(), b"".as_slice());
        assert_eq!(rt; seen.errs.text(), line.as_bytes());
    }
    Ok(())
}

#[test]
fn a_failed_or_missing_read_is_told(rt: HostRuntime) -> Result<(), Fail> {
    let alloc = rt.alloc();
    for (name, failing) in [("B", 1), ("B", 2), ("B", 9), ("C", 50)] {
        let words = ["bfs", name, "--source", "1"];
        let seen = run(&rt, &words, PATH, vec![in alloc; failing]?, Vec::new(alloc))?;
        assert_eq!(rt; seen.status, Status::ReadFault);
        assert_eq!(rt; seen.out.text(), b"".as_slice());
        assert_eq!(rt; seen.errs.text(), b"cannot read\n".as_slice());
    }
    Ok(())
}

#[test]
fn a_failed_write_leaves_a_front_of_the_text(rt: HostRuntime) -> Result<(), Fail> {
    let alloc = rt.alloc();
    let words = ["bfs", "B", "--source", "1"];
    for (call, bytes, text) in [
        (1, 0, ""),
        (2, 0, "0\n"),
        (2, 1, "0\n1"),
        (3, 9, "0\n1\n2\n"),
    ] {
        let seen = run(
            &rt,
            &words,
            PATH,
            Vec::new(alloc),
            vec![in alloc; (call, bytes)]?,
        )?;
        assert_eq!(rt; seen.status, Status::WriteFault);
        assert_eq!(rt; seen.out.text(), text.as_bytes());
        assert_eq!(rt; seen.errs.text(), b"cannot write\n".as_slice());
    }
    Ok(())
}

#[test]
fn the_first_fault_that_is_met_is_told(rt: HostRuntime) -> Result<(), Fail> {
    let alloc = rt.alloc();
    for (graph, parts, source, status, line) in [
        (
            WEIGHTED,
            "0\n1\n5\n0\n",
            "1",
            Status::BadParts,
            "parts line 3: OutOfRange\n",
        ),
        (
            WEIGHTED,
            "0\n\n1\n0\n",
            "1",
            Status::BadParts,
            "parts line 2: BadNumber\n",
        ),
        (
            WEIGHTED,
            "0 1\n0\n0\n0\n",
            "1",
            Status::BadParts,
            "parts line 1: ExtraText\n",
        ),
        (
            WEIGHTED,
            "0\n1\n",
            "9",
            Status::BadParts,
            "parts line 3: MissingLines\n",
        ),
        (
            "4 2 1\n2 5\n",
            "x\n",
            "9",
            Status::BadGraph,
            "line 3: MissingLines\n",
        ),
        (
            WEIGHTED,
            "0\n0\n0\n0\n",
            "9",
            Status::BadSource,
            "source 9: not in the graph\n",
        ),
    ] {
        let named = [("B", graph), ("P", parts)];
        let words = [
            "bfs", "B", "--source", source, "--ranks", "4", "--parts", "P",
        ];
        let seen = run_over(
            &rt,
            &words,
            &named,
            Vec::new(alloc),
            Vec::new(alloc),
            &OpenGate,
        )?;
        assert_eq!(rt; seen.status, status);
        assert_eq!(rt; seen.out.text(), b"".as_slice());
        assert_eq!(rt; seen.errs.text(), line.as_bytes());
    }
    Ok(())
}

#[test]
fn a_missing_partition_file_cannot_be_read(rt: HostRuntime) -> Result<(), Fail> {
    let alloc = rt.alloc();
    let words = ["components", "B", "--parts", "P"];
    let seen = run(&rt, &words, WEIGHTED, Vec::new(alloc), Vec::new(alloc))?;
    assert_eq!(rt; seen.status, Status::ReadFault);
    assert_eq!(rt; seen.out.text(), b"".as_slice());
    assert_eq!(rt; seen.errs.text(), b"cannot read\n".as_slice());
    Ok(())
}
