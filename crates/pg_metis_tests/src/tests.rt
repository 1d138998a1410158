//! Graph files in memory, which come in pieces of one byte.

use pg_base::{Edge, EdgeList};
use pg_metis::{GraphFault, Kind, read_graph};
use pg_outside::{Inputs, MemoryInputs};
use std::alloc::Global;
use std::process::Abort;
use std::test::Fail;

/// Reads a file; the calls of these numbers fail, of which the first turns to its start.
fn read_failing(
    alloc: Global,
    file: &str,
    fails: Vec<u64>,
) -> Result<Result<EdgeList, GraphFault>, Fail> {
    let mut files = Vec::new(alloc);
    files.push((
        String::from_str(alloc, "F")?,
        Vec::from_slice(alloc, file.as_bytes())?,
    ))?;
    let mut inputs = MemoryInputs::new(files, 1, fails);
    inputs.begin("F")?;
    Ok(read_graph(alloc, &mut inputs))
}

fn read(alloc: Global, file: &str) -> Result<Result<EdgeList, GraphFault>, Fail> {
    read_failing(alloc, file, Vec::new(alloc))
}

/// A file with what makes it worth a look, and its edges in the form (u, v, w).
#[derive(Drop)]
struct Accepted {
    note: &'static str,
    file: &'static str,
    n: u32,
    edges: &'static [(u32, u32, u32)],
}

fn edges_in(alloc: Global, triples: &[(u32, u32, u32)]) -> Result<Vec<Edge>, Fail> {
    let mut edges = Vec::new(alloc);
    for (u, v, w) in triples {
        edges.push(Edge {
            u: *u,
            v: *v,
            w: *w,
        })?;
    }
    Ok(edges)
}

fn assert_accepted(rt: &impl Abort, alloc: Global, case: &Accepted) -> Result<(), Fail> {
    let graph = read(alloc, case.file)??;
    assert_eq!(rt; graph.n(), case.n, "{}", case.note);
    assert_eq!(rt;
        graph.into_edges(),
        edges_in(alloc, case.edges)?,
        "{}",
        case.note
    );
    Ok(())
}

#[test]
fn a_graph_file_gives_its_graph(rt: HostRuntime) -> Result<(), Fail> {
    let cases = [
        Accepted {
            note: "no vertex",
            file: "0 0\n",
            n: 0,
            edges: &[],
        },
        Accepted {
            note: "a neighbour before a lesser one, and no newline at the end",
            file: "3 2\n2\n3 1\n2",
            n: 3,
            edges: &[(1, 2, 1), (2, 3, 1)],
        },
        Accepted {
            note: "comments, carriage returns and an empty line at the end",
            file: "% made by hand\r\n2 1\r\n% vertex 1\r\n2\r\n1\r\n% end\r\n\r\n",
            n: 2,
            edges: &[(1, 2, 1)],
        },
        Accepted {
            note: "two weights for each vertex, and one for each edge",
            file: "3 1 011 2\n7 0 2 9\n1 1 1 9\n4 4\n",
            n: 3,
            edges: &[(1, 2, 9)],
        },
        Accepted {
            note: "a size for each vertex",
            file: "2 1 100\n5 2\n6 1\n",
            n: 2,
            edges: &[(1, 2, 1)],
        },
        Accepted {
            note: "a number of weights of 0 counts as 1",
            file: "2 1 11 0\n4 2 3\n4 1 3\n",
            n: 2,
            edges: &[(1, 2, 3)],
        },
        Accepted {
            note: "a number of weights is ignored where vertices have none",
            file: "2 1 1 7\n2 3\n1 3\n",
            n: 2,
            edges: &[(1, 2, 3)],
        },
        Accepted {
            note: "a size of 0 and a weight of 0",
            file: "2 1 110\n0 0 2\n0 0 1\n",
            n: 2,
            edges: &[(1, 2, 1)],
        },
        Accepted {
            note: "the greatest weight",
            file: "2 1 1\n2 4294967295\n1 4294967295\n",
            n: 2,
            edges: &[(1, 2, 4_294_967_295)],
        },
        Accepted {
            note: "an edge of each of two weights, and a vertex without a neighbour",
            file: "4 2 1\n2 5\n1 5 3 2\n2 2\n\n",
            n: 4,
            edges: &[(1, 2, 5), (2, 3, 2)],
        },
        Accepted {
            note: "a usual mesh",
            file: "7 11\n5 3 2\n1 3 4\n5 4 2 1\n2 3 6 7\n1 3 6\n5 4 7\n6 4\n",
            n: 7,
            edges: &[
                (1, 2, 1),
                (1, 3, 1),
                (1, 5, 1),
                (2, 3, 1),
                (2, 4, 1),
                (3, 4, 1),
                (3, 5, 1),
                (4, 6, 1),
                (4, 7, 1),
                (5, 6, 1),
                (6, 7, 1),
            ],
        },
    ];
    for case in &cases {
        assert_accepted(&rt, rt.alloc(), case)?;
    }
    Ok(())
}

/// Asserts that each file is refused with this kind of fault, in the line that is given with what makes the
/// file worth a look.
fn assert_refused(
    rt: &impl Abort,
    alloc: Global,
    kind: Kind,
    cases: &[(&str, u64, &str)],
) -> Result<(), Fail> {
    for (file, line, note) in cases {
        let fault = GraphFault::Refused { line: *line, kind };
        assert_eq!(rt; read(alloc, file)?.err(), Some(fault), "{note}: {file}");
    }
    Ok(())
}

#[test]
fn a_file_without_a_header_is_refused(rt: HostRuntime) -> Result<(), Fail> {
    let none = [("", 1, "no line"), ("%a\n%b\n", 3, "comments alone")];
    assert_refused(&rt, rt.alloc(), Kind::NoHeader, &none)?;
    let words = [
        ("1\n\n", 1, "one word"),
        ("1048577\n", 1, "one word, above the limit"),
        ("\n3 2\n", 1, "an empty line is the header"),
        ("% c\n2 1 1 1 x\n2 3\n1 3\n", 2, "five words"),
    ];
    assert_refused(&rt, rt.alloc(), Kind::HeaderWords, &words)
}

#[test]
fn a_word_of_a_header_is_refused(rt: HostRuntime) -> Result<(), Fail> {
    let numbers = [
        ("x 8388609\n", 1, "n, before m above the limit"),
        ("2 -1 2\n2\n1\n", 1, "m, before a format that is none"),
        ("2 1 1 x\n2 3\n1\n", 1, "ncon, before a short line"),
        ("2 1 0 x\n2\n1\n", 1, "ncon, where it isn't used"),
    ];
    assert_refused(&rt, rt.alloc(), Kind::BadNumber, &numbers)?;
    let limits = [
        ("1048577 0\n", 1, "n"),
        ("1048577 x\n", 1, "n, before m that is no number"),
        ("2 8388609 2\n", 1, "m, before a format that is none"),
    ];
    assert_refused(&rt, rt.alloc(), Kind::OverLimit, &limits)?;
    let formats = [
        ("1 0 2\n\n", 1, "a digit 2"),
        ("1 0 0000 x\n\n", 1, "four digits, before what is no number"),
        ("1 0 012\nx\n", 1, "before a line's letter"),
    ];
    assert_refused(&rt, rt.alloc(), Kind::BadFormat, &formats)
}

#[test]
fn a_line_of_a_vertex_is_refused(rt: HostRuntime) -> Result<(), Fail> {
    let numbers = [
        ("2 1 100\nx 2\n6 1\n", 2, "a size"),
        ("2 1 10 2\n1 x 2\n1 1 1 2\n", 2, "a vertex's weight"),
        ("3 2\n2\n1 x\n2\n", 3, "a neighbour"),
        ("2 1\n00000000002 2\n1\n", 2, "eleven digits"),
        ("2 1\n4294967296\n1\n", 2, "too great, and above n"),
        (
            "2 1 1\n2 4294967296\n1 4294967295\n",
            2,
            "a weight above the greatest",
        ),
        ("2 1 1\n2 x 2\n1 1\n", 2, "before a neighbour again"),
    ];
    assert_refused(&rt, rt.alloc(), Kind::BadNumber, &numbers)?;
    let short = [
        ("2 1 100\n\n6 1\n", 2, "no size"),
        ("2 1 11 3\n1 1\n1 1 1 1 0\n", 2, "two weights of three"),
        ("2 1 1\n2 5\n1\n", 3, "no weight of an edge"),
        ("2 9 1\n2\n1 1\n", 2, "where the count is wrong"),
        ("3 2 1\n2\n1 3\n2\n", 2, "the path without weights"),
    ];
    assert_refused(&rt, rt.alloc(), Kind::ShortLine, &short)?;
    let weights = [
        ("2 1 1\n2 0\n1 0\n", 2, "both weights"),
        ("2 1 1\n2 0 2\n1 1\n", 2, "before a neighbour again"),
    ];
    assert_refused(&rt, rt.alloc(), Kind::ZeroWeight, &weights)
}

#[test]
fn a_neighbour_is_refused(rt: HostRuntime) -> Result<(), Fail> {
    let others = [
        ("2 1\n0 x\n1\n", 2, "0, before a letter"),
        ("2 1\n3 3\n1\n", 2, "above n, twice"),
        (
            "% a\r\n2 1\r\n% b\r\n2\r\n3\r\n% c\r\n\r\n",
            5,
            "above n, after comments",
        ),
    ];
    assert_refused(&rt, rt.alloc(), Kind::OutOfRange, &others)?;
    let selves = [
        ("1 1\n1\n", 2, "the vertex itself"),
        ("2 1\n1 1 0\n2\n", 2, "the vertex itself twice, before 0"),
    ];
    assert_refused(&rt, rt.alloc(), Kind::SelfEdge, &selves)?;
    let again = [
        ("2 1\n2 2\n1\n", 2, "twice"),
        ("2 2\n2 2 x\n1\n", 2, "twice, before a letter"),
        ("2 1 1\n2 5 2 0\n1 5\n", 2, "twice, before a weight of 0"),
    ];
    assert_refused(&rt, rt.alloc(), Kind::Repeated, &again)
}

#[test]
fn lines_too_few_or_too_many_are_refused(rt: HostRuntime) -> Result<(), Fail> {
    let missing = [
        ("3 1\n2\n1\n", 4, "one"),
        ("3 1\n2\n", 3, "two, where the count is wrong"),
        ("3 1\n% c\n2\n1\n% c\n", 6, "comments aren't counted"),
    ];
    assert_refused(&rt, rt.alloc(), Kind::MissingLines, &missing)?;
    let extra = [
        ("2 1\n2\n1\n3\n", 4, "a word"),
        ("2 2\n2\n1\n\n% c\n x\n", 6, "where the count is wrong"),
        ("0 0\n1\n", 2, "a word where no vertex is"),
    ];
    assert_refused(&rt, rt.alloc(), Kind::ExtraText, &extra)
}

#[test]
fn lines_of_no_graph_are_refused(rt: HostRuntime) -> Result<(), Fail> {
    let counts = [
        ("2 2\n2\n1\n", 1, "fewer than told"),
        ("% c\n3 1\n2 3\n1\n\n", 2, "more than told"),
    ];
    assert_refused(&rt, rt.alloc(), Kind::WrongCount, &counts)?;
    let unanswered = [
        ("3 1\n2\n3\n\n", 2, "the first of two"),
        ("3 2\n2\n1 3\n1\n", 3, "the path with another last line"),
        ("4 2 1\n2 5\n3 5\n4 7\n3 6\n", 2, "before different weights"),
    ];
    assert_refused(&rt, rt.alloc(), Kind::NoMirror, &unanswered)?;
    let weights = [
        ("2 1 1\n2 5\n1 6\n", 2, "one edge"),
        (
            "% c\n4 2 1\n% c\n2 5\n1 6\n4 7\n1 8\n",
            4,
            "before one not answered",
        ),
    ];
    assert_refused(&rt, rt.alloc(), Kind::MirrorWeight, &weights)
}

#[test]
fn a_failed_read_gives_no_graph(rt: HostRuntime) -> Result<(), Fail> {
    for call in 2..13u64 {
        let fails = vec![in rt.alloc(); call]?;
        let answer = read_failing(rt.alloc(), "3 2\n2\n1 3\n2\n", fails)?;
        assert_eq!(rt; answer.err(), Some(GraphFault::Failed), "call {call}");
    }
    Ok(())
}

#[test]
fn a_fault_is_told_before_a_later_read_fails(rt: HostRuntime) -> Result<(), Fail> {
    let cases = [
        ("1\n", "\n", 1, Kind::HeaderWords),
        ("x 1\n", "2\n1\n", 1, Kind::BadNumber),
        ("1048577 0\n", "\n", 1, Kind::OverLimit),
        ("1 0 2\n", "\n", 1, Kind::BadFormat),
        ("% c\n2 1 1\n2\n", "1 5\n", 3, Kind::ShortLine),
        ("3 2\n2\n1 4\n", "2\n", 3, Kind::OutOfRange),
        ("1 1\n1\n", "", 2, Kind::SelfEdge),
        ("2 1\n2 2\n", "1\n", 2, Kind::Repeated),
        ("2 1 1\n2 0\n", "1 0\n", 2, Kind::ZeroWeight),
        ("2 1\n2\n1\n3\n", "\n", 4, Kind::ExtraText),
    ];
    let alloc = rt.alloc();
    for (front, rest, line, kind) in cases {
        // The name is begun by the first call, and each read gives one byte.
        let after_front = front.len() as u64 + 2;
        let file = format!(in alloc; "{front}{rest}")?;
        let answer = read_failing(alloc, file.as_str(), vec![in alloc; after_front]?)?;
        let fault = GraphFault::Refused { line, kind };
        assert_eq!(rt; answer.err(), Some(fault), "{front}");
    }
    Ok(())
}
