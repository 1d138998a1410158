//! Dividing a graph among ranks.

ghost use Rattle.std.specs.Prelude.{◌≡◌, ℕ, ◌<◌, ◌≤◌, length, IfOk, slice_index_or};
ghost use Rattle.pg_base.specs.declared.TheConstants.{MAX_RANKS};
ghost use Rattle.pg_adj.specs.Division.{AreRows, Divided, arcs_at};
ghost use Rattle.pg_adj.specs.Holdings.{holdings};
ghost use Rattle.pg_base.specs.Keyed.{items_of};
ghost use Rattle.pg_adj.specs.Shares.{IsShareOf, ghost_lists};
ghost use Rattle.pg_adj.specs.declared.shares.Share.{Share};
ghost use Rattle.pg_adj.specs.declared.rows.ArcRows.{ArcRows};
ghost use Rattle.pg_adj.specs.declared.holders.HolderRows.{HolderRows};

use crate::Part;
use crate::ghosts::holding_ranks;
use crate::holders::{HolderRows, holder_rows};
use crate::owning::rows_on_threads;
use crate::rows::ArcRows;
use crate::shares::{Share, shares_of};
use crate::sizing::rows_of;
use pg_base::{EdgeList, OutOfMemory, RankNo};
use pg_dist::Distribution;
use std::alloc::{AllocError, Global};
use std::thread::Threads;

/// Divides `graph` as `dist` says: one part for each rank, in order. Each edge gives two arcs, each at the
/// owner of the vertex from which it leads. Takes time linear in the graph. Beside the parts, whose lists have no
/// spare room, it takes 4 bytes a vertex, and before that 16 bytes for each of up to 2,097,152 edges.
/// `OutOfMemory` comes only where an allocation is refused.
pub fn split<D: Distribution>(
    alloc: Global,
    graph: &EdgeList,
    dist: &D,
) -> Result<Vec<Part>, OutOfMemory>
    requires { graph.now.n ≡ (D.sharing dist.now).n }
    ensures { IfOk result (λ parts. Divided (D.sharing dist.now) graph.now parts.items) }
{
    parts_of(alloc, graph, dist).map_err(|_| OutOfMemory)
}

/// As [`split`], on at most `threads` threads, the caller's among them; where no thread can be made, all of it is done
/// by the caller's. Each rank's arcs are laid by one thread in a pass over all edges; where there are more than four ranks
/// for each thread, or one thread or one rank alone, it is just `split`. `OutOfMemory` comes only where an allocation is
/// refused.
pub fn split_on_threads<R: Threads + Sync, D: Distribution + Sync>(
    token: &R,
    alloc: Global,
    threads: u32,
    graph: &EdgeList,
    dist: &D,
) -> Result<Vec<Part>, OutOfMemory>
    requires threads { 1 ≤ threads }
    requires n { graph.now.n ≡ (D.sharing dist.now).n }
    ensures { IfOk result (λ parts. Divided (D.sharing dist.now) graph.now parts.items) }
{
    let ranks = dist.ranks().count();
    if threads == 1 || ranks == 1 || ranks.div_ceil(4) > threads {
        return split(alloc, graph, dist);
    }
    parts_on_threads(token, alloc, threads, graph, dist).map_err(|_| OutOfMemory)
}

fn parts_on_threads<R: Threads + Sync, D: Distribution + Sync>(
    token: &R,
    alloc: Global,
    threads: u32,
    graph: &EdgeList,
    dist: &D,
) -> Result<Vec<Part>, AllocError>
    requires threads { 1 ≤ threads }
    requires n { graph.now.n ≡ (D.sharing dist.now).n }
    ensures { IfOk result (λ parts. Divided (D.sharing dist.now) graph.now parts.items) }
{
    let rows = rows_on_threads(token, alloc, threads, graph, dist)?;
    parts_with(alloc, graph, dist, rows)
}

fn parts_of<D: Distribution>(
    alloc: Global,
    graph: &EdgeList,
    dist: &D,
) -> Result<Vec<Part>, AllocError>
    requires { graph.now.n ≡ (D.sharing dist.now).n }
    ensures { IfOk result (λ parts. Divided (D.sharing dist.now) graph.now parts.items) }
{
    parts_with(alloc, graph, dist, rows_of(alloc, graph, dist)?)
}

// The parts of which these are the rows.
fn parts_with<D: Distribution>(
    alloc: Global,
    graph: &EdgeList,
    dist: &D,
    rows: Vec<ArcRows>,
) -> Result<Vec<Part>, AllocError>
    requires n { graph.now.n ≡ (D.sharing dist.now).n }
    requires count { length rows.items ≡ (D.sharing dist.now).ranks }
    requires few { (D.sharing dist.now).ranks ≤ MAX_RANKS }
    requires row { (r : ℕ) (d : ArcRows) → r < (D.sharing dist.now).ranks
        → AreRows (λ i. arcs_at (D.sharing dist.now) graph.now.edges ((D.sharing dist.now).global r i)) ((D.sharing dist.now).count r)
        (slice_index_or rows.items r d).bounds.items (slice_index_or rows.items r d).arcs.items }
    ensures { IfOk result (λ parts. Divided (D.sharing dist.now) graph.now parts.items) }
{
    let sets = holding_ranks(alloc, graph, dist, &rows)?;
    let shares = shares_of(alloc, dist, rows, &sets)?;
    let holders = holder_rows(alloc, dist, &sets)?;
    joined(alloc, graph, dist, shares, holders)
}

// Each rank's part: its share with the holders of its vertices.
fn joined<D: Distribution>(
    alloc: Global,
    graph: &EdgeList,
    dist: &D,
    shares: Vec<Share>,
    holders: Vec<HolderRows>,
) -> Result<Vec<Part>, AllocError>
    requires n { graph.now.n ≡ (D.sharing dist.now).n }
    requires count { length shares.items ≡ (D.sharing dist.now).ranks }
    requires few { (D.sharing dist.now).ranks ≤ MAX_RANKS }
    requires share { (r : ℕ) (d : Share) → r < (D.sharing dist.now).ranks
        → IsShareOf (D.sharing dist.now) graph.now.edges r (slice_index_or shares.items r d) }
    requires each { length holders.items ≡ (D.sharing dist.now).ranks }
    requires holders { (r : ℕ) (d : HolderRows) → r < (D.sharing dist.now).ranks
        → AreRows (λ i. items_of (holdings 0 (ghost_lists shares.items)) ((D.sharing dist.now).global r i)) ((D.sharing dist.now).count r)
        (slice_index_or holders.items r d).bounds.items (slice_index_or holders.items r d).holders.items }
    ensures { IfOk result (λ parts. Divided (D.sharing dist.now) graph.now parts.items) }
{
    let mut parts = Vec::with_capacity(alloc, shares.len())?;
    for (share, rows) in shares.into_iter().zip(holders) {
        let rank = RankNo(parts.len() as u32);
        parts.push(Part::of_share(rank, dist.ranks(), graph.n(), share, rows))?;
    }
    Ok(parts)
}
