//! Greatest degrees of small graphs and of their vertices' neighbours, over several ranks.
ghost use Rattle.std.specs.Prelude.{◌≡◌, [], ◌∷◌};
ghost use Rattle.pg_base.specs.Examples.{edge, graph};
ghost use Rattle.pg_base.specs.Graph.{IsGraph};

use crate::{greatest_degree, neighbour_degrees, run_degrees, run_neighbour_degrees};
use pg_base::{Edge, EdgeList, Ranks};
use pg_dist::Block;
use std::alloc::{AllocError, Global};
use std::test::Fail;

// Vertex 3 is joined to all others, and 4 to 5.
fn fan(alloc: Global) -> Result<EdgeList, AllocError> {
    let edges = vec![in alloc; edge(1, 3), edge(2, 3), edge(3, 4), edge(3, 5), edge(4, 5)]?;
    is_graph();
    Ok(EdgeList::new(5, edges))
}

fn edge(u: u32, v: u32) -> Edge
    ensures { result ≡ edge u v 1 }
{
    Edge { u, v, w: 1 }
}

// The edges above are those of a graph.
fn is_graph()
    ensures { IsGraph (graph 5 (edge 1 3 1 ∷ edge 2 3 1 ∷ edge 3 4 1 ∷ edge 3 5 1 ∷ edge 4 5 1 ∷ [])) }
{}

#[test]
fn every_number_of_ranks_finds_the_greatest_degree(rt: HostRuntime) -> Result<(), Fail> {
    let graph = fan(rt.alloc())?;
    for (count, threads, capacity) in [(1, 1, 1), (2, 2, 1), (3, 2, 1024), (5, 5, 1), (32, 3, 7)] {
        let ranks = Ranks::new(count).ok_or("no number of ranks")?;
        let found = greatest_degree(&rt, rt.alloc(), &graph, ranks, threads, capacity)?;
        assert_eq!(rt; found, 4);
    }
    Ok(())
}

#[test]
fn every_rank_knows_it_after_one_message_and_one_mark_on_each_lane(
    rt: HostRuntime,
) -> Result<(), Fail> {
    let graph = fan(rt.alloc())?;
    let ranks = Ranks::new(3).ok_or("no number of ranks")?;
    let dist = Block::new(graph.n(), ranks);
    let finished = run_degrees(&rt, rt.alloc(), &graph, &dist, 3, 1)?;
    assert_eq!(rt; finished.programs.len(), 3);
    for program in &finished.programs {
        assert_eq!(rt; program.greatest(), 4);
    }
    assert_eq!(rt; finished.lanes.len(), 6);
    for lane in &finished.lanes {
        assert_eq!(rt; lane.pushed(), 2);
        assert_eq!(rt; lane.left(), 0);
    }
    Ok(())
}

#[test]
fn a_graph_with_no_vertex_has_degree_0(rt: HostRuntime) -> Result<(), Fail> {
    let graph = EdgeList::new(0, Vec::new(rt.alloc()));
    let ranks = Ranks::new(3).ok_or("no number of ranks")?;
    assert_eq!(rt; greatest_degree(&rt, rt.alloc(), &graph, ranks, 3, 1)?, 0);
    Ok(())
}

#[test]
fn every_number_of_ranks_finds_the_neighbours_degrees(rt: HostRuntime) -> Result<(), Fail> {
    let graph = fan(rt.alloc())?;
    for (count, threads, capacity) in [(1, 1, 1), (2, 2, 1), (3, 2, 1024), (5, 5, 1), (32, 3, 7)] {
        let ranks = Ranks::new(count).ok_or("no number of ranks")?;
        let found = neighbour_degrees(&rt, rt.alloc(), &graph, ranks, threads, capacity)?;
        assert_eq!(rt; found.len(), 5);
        for (place, degree) in [4, 4, 2, 4, 4].iter().enumerate() {
            assert_eq!(rt; found[place], *degree);
        }
    }
    Ok(())
}

#[test]
fn a_synchronize_sends_each_holder_one_refresh_and_two_marks(rt: HostRuntime) -> Result<(), Fail> {
    let graph = fan(rt.alloc())?;
    let ranks = Ranks::new(2).ok_or("no number of ranks")?;
    let dist = Block::new(graph.n(), ranks);
    // The first rank owns 1, 2 and 3, of which the other one holds 3, and itself holds 4 and 5.
    let finished = run_neighbour_degrees(&rt, rt.alloc(), &graph, &dist, 2, 1)?;
    assert_eq!(rt; finished.lanes.len(), 2);
    assert_eq!(rt; finished.lanes[0].pushed(), 3);
    assert_eq!(rt; finished.lanes[1].pushed(), 4);
    Ok(())
}

#[test]
fn a_vertex_with_no_neighbour_has_0(rt: HostRuntime) -> Result<(), Fail> {
    let graph = EdgeList::new(2, Vec::new(rt.alloc()));
    let ranks = Ranks::new(3).ok_or("no number of ranks")?;
    let found = neighbour_degrees(&rt, rt.alloc(), &graph, ranks, 3, 1)?;
    assert_eq!(rt; found.len(), 2);
    assert_eq!(rt; found[0], 0);
    assert_eq!(rt; found[1], 0);
    Ok(())
}
