//! The texts, as a sink in memory gets them.
ghost use Rattle.std.specs.Prelude.{◌≡◌, ◌≤◌, IfOk, length};
ghost use Rattle.pg_base.specs.declared.TheConstants.{MAX_VERTICES};

use crate::{
    Column, Fault, Summary, Tally, print_column, print_fault, print_forest, print_summary,
};
use pg_base::{Edge, EdgeList, Vertex};
use pg_metis::{Kind, PartsKind};
use pg_outside::MemorySink;
use std::alloc::Global;
use std::test::Fail;

#[derive(Drop)]
struct Answers {
    list: Vec<Option<u64>>,
    ghost few: { length list.items ≤ MAX_VERTICES },
}

impl Column for Answers {
    ghost answers = { λ a. a.list.items };

    fn len(&self) -> u32 {
        self.list.len() as u32
    }

    fn at(&self, v: Vertex) -> Option<u64> {
        self.list[v.0 as usize - 1]
    }
}

/// Nothing for the second of three vertices.
fn column(alloc: Global) -> Result<Answers, Fail> {
    let list = vec![in alloc; Some(7), None, Some(u64::MAX)]?;
    Ok(Answers { list })
}

#[test]
fn each_answer_is_a_line_and_none_is_a_hyphen(rt: HostRuntime) -> Result<(), Fail> {
    let alloc = rt.alloc();
    let mut out = MemorySink::new(alloc, 64, Vec::new(alloc))?;
    let written = print_column(&mut out, &column(alloc)?);
    assert!(rt; written.is_ok());
    assert_eq!(rt; out.text(), b"7\n-\n18446744073709551615\n".as_slice());
    Ok(())
}

#[test]
fn each_line_is_one_write(rt: HostRuntime) -> Result<(), Fail> {
    let alloc = rt.alloc();
    for (call, text) in [(1, ""), (2, "7\n"), (3, "7\n-\n")] {
        let mut out = MemorySink::new(alloc, 64, vec![in alloc; (call, 0)]?)?;
        let written = print_column(&mut out, &column(alloc)?);
        assert!(rt; written.is_err());
        assert_eq!(rt; out.text(), text.as_bytes());
    }
    Ok(())
}

#[test]
fn the_line_of_a_fault_is_one_write(rt: HostRuntime) -> Result<(), Fail> {
    let alloc = rt.alloc();
    let faults = [
        Fault::Words,
        Fault::Graph {
            line: u64::MAX,
            kind: Kind::MirrorWeight,
        },
        Fault::Parts {
            line: 3,
            kind: PartsKind::OutOfRange,
        },
        Fault::Source { source: u32::MAX },
        Fault::Read,
        Fault::Write,
        Fault::Memory,
    ];
    for fault in faults {
        let mut out = MemorySink::new(alloc, 80, vec![in alloc; (2, 0)]?)?;
        assert!(rt; print_fault(&mut out, &fault).is_ok());
        let mut out = MemorySink::new(alloc, 80, vec![in alloc; (1, 0)]?)?;
        assert!(rt; print_fault(&mut out, &fault).is_err());
        assert_eq!(rt; out.text(), b"".as_slice());
    }
    Ok(())
}

#[test]
fn a_sink_that_is_full_keeps_a_front(rt: HostRuntime) -> Result<(), Fail> {
    let alloc = rt.alloc();
    let mut out = MemorySink::new(alloc, 3, Vec::new(alloc))?;
    let written = print_column(&mut out, &column(alloc)?);
    assert!(rt; written.is_err());
    assert_eq!(rt; out.text(), b"7\n-".as_slice());
    Ok(())
}

#[test]
fn each_fault_has_its_line(rt: HostRuntime) -> Result<(), Fail> {
    let alloc = rt.alloc();
    let cases = [
        (Fault::Words, "bad words\n"),
        (
            Fault::Graph {
                line: 12,
                kind: Kind::MirrorWeight,
            },
            "line 12: MirrorWeight\n",
        ),
        (
            Fault::Parts {
                line: 3,
                kind: PartsKind::OutOfRange,
            },
            "parts line 3: OutOfRange\n",
        ),
        (Fault::Source { source: 0 }, "source 0: not in the graph\n"),
        (Fault::Read, "cannot read\n"),
        (Fault::Write, "cannot write\n"),
        (Fault::Memory, "no memory\n"),
    ];
    for (fault, line) in cases {
        let mut out = MemorySink::new(alloc, 64, Vec::new(alloc))?;
        let written = print_fault(&mut out, &fault);
        assert!(rt; written.is_ok());
        assert_eq!(rt; out.text(), line.as_bytes());
    }
    Ok(())
}

/// 1 --5-- 2 --2-- 3     4
fn path(alloc: Global) -> Result<EdgeList, Fail>
    ensures { IfOk result (λ graph. length graph.edges ≡ 2) }
{
    let edges = vec![in alloc;
        Edge { u: 1, v: 2, w: 5 },
        Edge {
            u: 2,
            v: 3,
            w: u32::MAX
        },
    ]?;
    Ok(EdgeList::new(4, edges))
}

#[test]
fn each_edge_is_a_line_and_the_total_is_the_last(rt: HostRuntime) -> Result<(), Fail> {
    let alloc = rt.alloc();
    let mut out = MemorySink::new(alloc, 64, Vec::new(alloc))?;
    let written = print_forest(&mut out, &path(alloc)?, &[0, 1]);
    assert!(rt; written.is_ok());
    assert_eq!(rt;
        out.text(),
        b"1 2 5\n2 3 4294967295\ntotal 4294967300\n".as_slice()
    );
    Ok(())
}

#[test]
fn edges_are_told_by_their_indices(rt: HostRuntime) -> Result<(), Fail> {
    let alloc = rt.alloc();
    let mut out = MemorySink::new(alloc, 64, Vec::new(alloc))?;
    let written = print_forest(&mut out, &path(alloc)?, &[0]);
    assert!(rt; written.is_ok());
    assert_eq!(rt; out.text(), b"1 2 5\ntotal 5\n".as_slice());
    let mut out = MemorySink::new(alloc, 64, Vec::new(alloc))?;
    let written = print_forest(&mut out, &path(alloc)?, &[]);
    assert!(rt; written.is_ok());
    assert_eq!(rt; out.text(), b"total 0\n".as_slice());
    Ok(())
}

#[test]
fn each_line_of_a_forest_is_one_write(rt: HostRuntime) -> Result<(), Fail> {
    let alloc = rt.alloc();
    for (call, bytes, text) in [
        (1, 1, "1"),
        (2, 0, "1 2 5\n"),
        (3, 6, "1 2 5\n2 3 4294967295\ntotal "),
    ] {
        let mut out = MemorySink::new(alloc, 64, vec![in alloc; (call, bytes)]?)?;
        let written = print_forest(&mut out, &path(alloc)?, &[0, 1]);
        assert!(rt; written.is_err());
        assert_eq!(rt; out.text(), text.as_bytes());
    }
    Ok(())
}

/// Of the grid of two columns and two rows with the seed 7.
const GRID: Summary = Summary {
    vertices: 4,
    edges: 4,
    hops: Tally {
        count: 4,
        far: 2,
        sum: 4,
    },
    weights: Tally {
        count: 4,
        far: 3_805,
        sum: 7_477,
    },
    components: 1,
    forest: 3,
    total: 5_031,
    clashes: 0,
};

#[test]
fn a_summary_is_seven_lines(rt: HostRuntime) -> Result<(), Fail> {
    let alloc = rt.alloc();
    let mut out = MemorySink::new(alloc, 256, Vec::new(alloc))?;
    let written = print_summary(&mut out, &GRID);
    assert!(rt; written.is_ok());
    let text =
        "vertices 4\nedges 4\nhops 4 2 4\nweights 4 3805 7477\ncomponents 1\nforest 3 5031\nclashes 0\n";
    assert_eq!(rt; out.text(), text.as_bytes());
    Ok(())
}

#[test]
fn each_line_of_a_summary_is_one_write(rt: HostRuntime) -> Result<(), Fail> {
    let alloc = rt.alloc();
    for (call, text) in [
        (1, ""),
        (3, "vertices 4\nedges 4\n"),
        (
            7,
            "vertices 4\nedges 4\nhops 4 2 4\nweights 4 3805 7477\ncomponents 1\nforest 3 5031\n",
        ),
    ] {
        let mut out = MemorySink::new(alloc, 256, vec![in alloc; (call, 0)]?)?;
        let written = print_summary(&mut out, &GRID);
        assert!(rt; written.is_err());
        assert_eq!(rt; out.text(), text.as_bytes());
    }
    Ok(())
}
