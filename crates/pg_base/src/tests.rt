//! Small cases of ranks, edge lists, exit statuses and the open gate.

use crate::{Edge, EdgeList, Gate, OpenGate, RankNo, Ranks, Status, laws};
use std::test::Fail;

#[test]
fn a_group_has_one_to_thirty_two_ranks(rt: HostRuntime) {
    assert_eq!(rt; Ranks::new(0), None);
    assert_eq!(rt; Ranks::new(33), None);
    for count in [1, 4, 32] {
        assert_eq!(rt; Ranks::new(count).map(|ranks| ranks.count()), Some(count));
    }
}

#[test]
fn a_graph_keeps_its_vertices_and_edges(rt: HostRuntime) -> Result<(), Fail> {
    let first = Edge { u: 1, v: 2, w: 5 };
    let second = Edge { u: 2, v: 3, w: 2 };
    let edges = vec![in rt.alloc(); first, second]?;
    laws::graphs();
    let graph = EdgeList::new(4, edges);
    assert_eq!(rt; graph.n(), 4);
    assert_eq!(rt; graph.edges(), [first, second].as_slice());
    assert_eq!(rt; graph.into_edges().as_slice(), [first, second].as_slice());
    Ok(())
}

#[test]
fn each_outcome_has_its_exit_status(rt: HostRuntime) {
    for (status, number) in [
        (Status::Ok, 0),
        (Status::BadWords, 2),
        (Status::BadGraph, 3),
        (Status::BadParts, 4),
        (Status::ReadFault, 5),
        (Status::WriteFault, 6),
        (Status::NoMemory, 7),
        (Status::BadSource, 8),
    ] {
        assert_eq!(rt; status.number(), number, "at {status:?}");
    }
}

#[test]
fn the_open_gate_holds_nobody() {
    OpenGate.pass(RankNo(0), 1);
}
