//! Partition files in memory, which come in pieces of one byte.

use pg_base::Ranks;
use pg_metis::{PartsFault, PartsKind, read_parts};
use pg_outside::{Inputs, MemoryInputs};
use std::alloc::Global;
use std::process::Abort;
use std::test::Fail;

type Answer = Result<Vec<u32>, PartsFault>;

/// Reads the ranks of `n` vertices; the calls of these numbers fail, of which the first turns to the start.
fn read_failing(
    rt: &impl Abort,
    alloc: Global,
    file: &str,
    n: u32,
    ranks: u32,
    fails: Vec<u64>,
) -> Result<Answer, Fail> {
    let mut files = Vec::new(alloc);
    files.push((
        String::from_str(alloc, "P")?,
        Vec::from_slice(alloc, file.as_bytes())?,
    ))?;
    let mut inputs = MemoryInputs::new(files, 1, fails);
    inputs.begin("P")?;
    let ranks = Ranks::new(ranks).expect(rt, "from 1 to 32");
    Ok(read_parts(alloc, &mut inputs, n, ranks))
}

fn read(rt: &impl Abort, alloc: Global, file: &str, n: u32, ranks: u32) -> Result<Answer, Fail> {
    read_failing(rt, alloc, file, n, ranks, Vec::new(alloc))
}

#[test]
fn a_partition_file_gives_its_ranks(rt: HostRuntime) -> Result<(), Fail> {
    let cases: [(&str, u32, &[u32], &str); 9] = [
        ("", 1, &[], "no vertex and no byte"),
        ("% none\n\n", 1, &[], "no vertex"),
        ("0\n1\n", 2, &[0, 1], "a rank each"),
        ("0\n1\n3\n0\n", 4, &[0, 1, 3, 0], "a rank that owns nothing"),
        ("1\n0", 2, &[1, 0], "no newline at the end"),
        (
            "% ranks\r\n1\r\n% of two\r\n0\r\n% end\r\n \t\r\n\n",
            2,
            &[1, 0],
            "comments and blank lines",
        ),
        ("\t1 \n 0\n", 2, &[1, 0], "blanks around numbers"),
        ("0000000031\n", 32, &[31], "ten digits"),
        ("0\n0\n", 1, &[0, 0], "one rank"),
    ];
    for (file, ranks, parts, note) in &cases {
        let n = parts.len() as u32;
        let answer = read(&rt, rt.alloc(), file, n, *ranks)??;
        assert_eq!(rt; answer.as_slice(), *parts, "{note}");
    }
    Ok(())
}

/// Each file, of so many vertices and ranks, is refused with this line and kind.
fn assert_refused(
    rt: &impl Abort,
    alloc: Global,
    cases: &[(&str, u32, u32, u64, PartsKind, &str)],
) -> Result<(), Fail> {
    for (file, n, ranks, line, kind, note) in cases {
        let fault = PartsFault::Refused {
            line: *line,
            kind: *kind,
        };
        assert_eq!(rt;
            read(rt, alloc, file, *n, *ranks)?.err(),
            Some(fault),
            "{note}: {file}"
        );
    }
    Ok(())
}

#[test]
fn the_line_of_a_vertex_is_refused(rt: HostRuntime) -> Result<(), Fail> {
    let cases = [
        ("0\n\n1\n0\n", 4, 4, 2, PartsKind::BadNumber, "no word"),
        ("0\nx\n", 2, 2, 2, PartsKind::BadNumber, "a letter"),
        ("-1\n0\n", 2, 2, 1, PartsKind::BadNumber, "a sign"),
        (
            "x 0\n",
            1,
            2,
            1,
            PartsKind::BadNumber,
            "a letter before a second word",
        ),
        (
            "4294967296\n",
            1,
            32,
            1,
            PartsKind::BadNumber,
            "above the greatest number",
        ),
        (
            "0\n1\n5\n0\n",
            4,
            4,
            3,
            PartsKind::OutOfRange,
            "above the ranks",
        ),
        (
            "% c\n2\n",
            1,
            2,
            2,
            PartsKind::OutOfRange,
            "the number of ranks",
        ),
        (
            "2 x\n",
            1,
            2,
            1,
            PartsKind::OutOfRange,
            "above the ranks, before a second word",
        ),
        (
            "0 1\n0\n0\n0\n",
            4,
            4,
            1,
            PartsKind::ExtraText,
            "a second word",
        ),
        (
            "0\n0 %\n",
            2,
            1,
            2,
            PartsKind::ExtraText,
            "a percent sign begins no comment here",
        ),
    ];
    assert_refused(&rt, rt.alloc(), &cases)
}

#[test]
fn ranks_too_few_or_too_many_are_refused(rt: HostRuntime) -> Result<(), Fail> {
    let cases = [
        ("", 1, 1, 1, PartsKind::MissingLines, "no line"),
        (
            "0\n1\n",
            4,
            2,
            3,
            PartsKind::MissingLines,
            "two are missing",
        ),
        (
            "% c\n0\n% c\n",
            2,
            2,
            4,
            PartsKind::MissingLines,
            "comments are no lines of vertices",
        ),
        (
            "0\n2\n",
            3,
            2,
            2,
            PartsKind::OutOfRange,
            "a line's fault comes before missing lines",
        ),
        (
            "0\n1\n0\n",
            2,
            2,
            3,
            PartsKind::ExtraText,
            "a number follows",
        ),
        (
            "0\n\n% c\n x\n",
            1,
            2,
            4,
            PartsKind::ExtraText,
            "a word follows later",
        ),
        (
            "0\n",
            0,
            2,
            1,
            PartsKind::ExtraText,
            "a word where no vertex is",
        ),
    ];
    assert_refused(&rt, rt.alloc(), &cases)
}

#[test]
fn a_failed_read_gives_no_ranks(rt: HostRuntime) -> Result<(), Fail> {
    for call in 2..7u64 {
        let fails = vec![in rt.alloc(); call]?;
        let answer = read_failing(&rt, rt.alloc(), "0\n1\n", 2, 2, fails)?;
        assert_eq!(rt; answer.err(), Some(PartsFault::Failed), "call {call}");
    }
    Ok(())
}

#[test]
fn a_fault_is_told_before_a_later_read_fails(rt: HostRuntime) -> Result<(), Fail> {
    let fails = vec![in rt.alloc(); 4]?;
    let answer = read_failing(&rt, rt.alloc(), "2\n0\n", 2, 2, fails)?;
    let fault = PartsFault::Refused {
        line: 1,
        kind: PartsKind::OutOfRange,
    };
    assert_eq!(rt; answer.err(), Some(fault));
    Ok(())
}
