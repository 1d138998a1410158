//! Small grids edge by edge, and the number of edges of a large one.
ghost use Rattle.std.specs.Prelude.{◌≡◌, ◌*◌, ◌≤◌};
ghost use Rattle.pg_base.specs.declared.TheConstants.{MAX_VERTICES};

use crate::grid;
use pg_base::{Edge, EdgeList};
use std::alloc::Global;
use std::test::Fail;

// The expected edges were drawn by hand, or by a program in another language.

#[test]
fn two_columns_and_two_rows_have_four_edges(rt: HostRuntime) -> Result<(), Fail> {
    let edges = [
        edge(1, 2, 2446),
        edge(1, 3, 1226),
        edge(2, 4, 1359),
        edge(3, 4, 2835),
    ];
    let graph = grid_with_memory(rt.alloc(), 2, 2, 7)?;
    assert_eq!(rt; graph.n(), 4);
    assert_eq!(rt; graph.edges(), edges.as_slice());
    Ok(())
}

#[test]
fn rows_are_as_wide_as_the_width(rt: HostRuntime) -> Result<(), Fail> {
    let edges = [
        edge(1, 2, 2105),
        edge(1, 4, 720),
        edge(2, 3, 1265),
        edge(2, 5, 2190),
        edge(3, 6, 3882),
        edge(4, 5, 704),
        edge(5, 6, 2877),
    ];
    let graph = grid_with_memory(rt.alloc(), 3, 2, 1)?;
    assert_eq!(rt; graph.n(), 6);
    assert_eq!(rt; graph.edges(), edges.as_slice());
    Ok(())
}

#[test]
fn a_single_vertex_has_no_edge(rt: HostRuntime) -> Result<(), Fail> {
    let graph = grid_with_memory(rt.alloc(), 1, 1, 5)?;
    assert_eq!(rt; graph.n(), 1);
    assert!(rt; graph.edges().is_empty());
    Ok(())
}

#[test]
fn a_row_and_a_column_are_the_same_path(rt: HostRuntime) -> Result<(), Fail> {
    // The edge between 4 and 5 is left out.
    let edges = [edge(1, 2, 2219), edge(2, 3, 889), edge(3, 4, 1296)];
    for (width, height) in [(1, 5), (5, 1)] {
        let graph = grid_with_memory(rt.alloc(), width, height, 3)?;
        assert_eq!(rt; graph.n(), 5);
        assert_eq!(rt; graph.edges(), edges.as_slice(), "{width} by {height}");
    }
    Ok(())
}

#[test]
fn a_seed_counts_modulo_the_states(rt: HostRuntime) -> Result<(), Fail> {
    let graph = grid_with_memory(rt.alloc(), 3, 3, 7)?;
    let same = grid_with_memory(rt.alloc(), 3, 3, 2_147_483_655)?;
    assert_eq!(rt; graph.edges(), same.edges());
    Ok(())
}

#[test]
fn a_large_grid_has_its_number_of_edges(rt: HostRuntime) -> Result<(), Fail> {
    let graph = grid_with_memory(rt.alloc(), 300, 300, 1)?;
    assert_eq!(rt; graph.n(), 90_000);
    assert_eq!(rt; graph.edges().len(), 157_154);
    assert_eq!(rt; graph.edges().last(), Some(&edge(89_998, 89_999, 938)));
    Ok(())
}

fn grid_with_memory(alloc: Global, width: u32, height: u32, seed: u32) -> Result<EdgeList, Fail>
    requires width { 1 ≤ width }
    requires height { 1 ≤ height }
    requires size { width * height ≤ MAX_VERTICES }
{
    Ok(grid(alloc, width, height, seed).ok().ok_or("no memory")?)
}

const fn edge(u: u32, v: u32, w: u32) -> Edge {
    Edge { u, v, w }
}
