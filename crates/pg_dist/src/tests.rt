//! Small distributions in blocks and by a list, and the way from a vertex to its place and back.

ghost use Rattle.std.specs.Prelude.{◌≡◌, ◌≤◌};

use crate::{Block, Distribution, Listed};
use pg_base::{RankNo, Ranks, Vertex};
use std::test::Fail;

// The vertex that stands at the owner and the place of `v`: by the laws, `v` itself.
fn there_and_back<D: Distribution>(dist: &D, v: Vertex) -> Vertex
    requires first { 1 ≤ v.0 }
    requires last { v.0 ≤ (D.sharing dist.now).n }
    ensures { result ≡ v }
{
    dist.global(dist.owner(v), dist.local(v))
}

#[test]
fn the_first_blocks_have_one_vertex_more(rt: HostRuntime) -> Result<(), Fail> {
    let ranks = Ranks::new(4).ok_or("no number of ranks")?;
    let dist = Block::new(10, ranks);
    assert_eq!(rt; dist.count(RankNo(0)), 3);
    assert_eq!(rt; dist.count(RankNo(1)), 3);
    assert_eq!(rt; dist.count(RankNo(2)), 2);
    assert_eq!(rt; dist.count(RankNo(3)), 2);
    assert_eq!(rt; dist.owner(Vertex(7)), RankNo(2));
    assert_eq!(rt; dist.local(Vertex(7)), 0);
    assert_eq!(rt; there_and_back(&dist, Vertex(7)), Vertex(7));
    Ok(())
}

#[test]
fn a_list_names_the_owner_of_each_vertex(rt: HostRuntime) -> Result<(), Fail> {
    let ranks = Ranks::new(2).ok_or("no number of ranks")?;
    let parts = vec![in rt.alloc(); 0, 1]?;
    let dist = Listed::new(rt.alloc(), parts, ranks).map_err(|_| "no memory")?;
    assert_eq!(rt; dist.n(), 2);
    assert_eq!(rt; dist.ranks().count(), 2);
    assert_eq!(rt; dist.owner(Vertex(2)), RankNo(1));
    assert_eq!(rt; dist.local(Vertex(2)), 0);
    assert_eq!(rt; dist.count(RankNo(1)), 1);
    assert_eq!(rt; there_and_back(&dist, Vertex(2)), Vertex(2));
    Ok(())
}

#[test]
fn no_vertices_leave_each_rank_without_any(rt: HostRuntime) -> Result<(), Fail> {
    let ranks = Ranks::new(3).ok_or("no number of ranks")?;
    let blocks = Block::new(0, ranks);
    let parts = vec![in rt.alloc()]?;
    let listed = Listed::new(rt.alloc(), parts, ranks).map_err(|_| "no memory")?;
    assert_eq!(rt; blocks.n(), 0);
    assert_eq!(rt; blocks.ranks().count(), 3);
    assert_eq!(rt; blocks.count(RankNo(2)), 0);
    assert_eq!(rt; listed.n(), 0);
    assert_eq!(rt; listed.count(RankNo(2)), 0);
    Ok(())
}
