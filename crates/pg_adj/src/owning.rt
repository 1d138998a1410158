//! The rows of every rank on threads, each made by one of them.

ghost use Rattle.std.specs.Prelude.{◌≡◌, ℕ, ◌<◌, ◌≤◌, All, Option, Some, length, map, IfOk, IfSome, slice_index_or};
ghost use Rattle.pg_base.specs.Graph.{IsEdge};
ghost use Rattle.pg_base.specs.Keyed.{AreCounts};
ghost use Rattle.pg_base.specs.declared.TheConstants.{MAX_EDGES, MAX_RANKS};
ghost use Rattle.pg_adj.specs.Incidence.{incidences};
ghost use Rattle.pg_adj.specs.Division.{AreRows, arcs_at};
ghost use Rattle.pg_adj.specs.Owning.{HasRowsOf};
ghost use Rattle.pg_adj.specs.declared.rows.ArcRows.{ArcRows};

use crate::own_filling::fill_own;
use crate::rows::{ArcRows, degrees, own_vertices, rows_for};
use pg_base::{Edge, EdgeList, RankNo};
use pg_dist::Distribution;
use std::alloc::{AllocError, Global};
use std::thread::{Threads, for_each_mut};

/// The arcs that each rank keeps, in the order of the graph's edges. Each rank's are made by one of at most `threads`
/// threads, in a pass over all edges.
pub fn rows_on_threads<R: Threads + Sync, D: Distribution + Sync>(
    token: &R,
    alloc: Global,
    threads: u32,
    graph: &EdgeList,
    dist: &D,
) -> Result<Vec<ArcRows>, AllocError>
    requires threads { 1 ≤ threads }
    requires n { graph.now.n ≡ (D.sharing dist.now).n }
    ensures count { IfOk result (λ rows. length rows.items ≡ (D.sharing dist.now).ranks) }
    ensures few { IfOk result (λ _rows. (D.sharing dist.now).ranks ≤ MAX_RANKS) }
    ensures row { IfOk result (λ rows. (r : ℕ) (d : ArcRows) → r < (D.sharing dist.now).ranks
        → AreRows (λ i. arcs_at (D.sharing dist.now) graph.now.edges ((D.sharing dist.now).global r i)) ((D.sharing dist.now).count r)
        (slice_index_or rows.items r d).bounds.items (slice_index_or rows.items r d).arcs.items) }
{
    let degrees = degrees(alloc, graph.n(), graph.edges())?;
    let mut made = no_rows(alloc, dist.ranks().count() as usize)?;
    make_rows(
        token,
        alloc,
        threads as usize,
        dist,
        graph.edges(),
        &degrees,
        &mut made,
    );
    taken(alloc, made)
}

// As many places, each without rows.
fn no_rows(alloc: Global, ranks: usize) -> Result<Vec<Option<ArcRows>>, AllocError>
    ensures { IfOk result (λ made. length made.items ≡ ranks) }
{
    let mut made = Vec::with_capacity(alloc, ranks)?;
    for _ in 0..ranks {
        made.push(None)?;
    }
    Ok(made)
}

// Makes the rows of each rank. A place stays without rows where memory ran out.
fn make_rows<R: Threads + Sync, D: Distribution + Sync>(
    token: &R,
    alloc: Global,
    threads: usize,
    dist: &D,
    edges: &[Edge],
    degrees: &[u32],
    made: &mut [Option<ArcRows>],
)
    requires threads { 1 ≤ threads }
    requires within { All (IsEdge (D.sharing dist.now).n) edges.now }
    requires few { length edges.now ≤ MAX_EDGES }
    requires degrees { AreCounts (D.sharing dist.now).n (incidences 0 edges.now) degrees.now }
    requires ranks { length made.old ≡ (D.sharing dist.now).ranks }
    ensures size { length made.new ≡ length made.old }
    ensures rows { (r : ℕ) (d : Option ArcRows) → r < (D.sharing dist.now).ranks
        → IfSome (slice_index_or made.new r d) (HasRowsOf (D.sharing dist.now) edges.now r) }
{
    let make = |r: usize, own: &mut Option<ArcRows>|
        requires { (r < (D.sharing dist.now).ranks) × ((D.sharing dist.now).ranks ≤ MAX_RANKS)
            × All (IsEdge (D.sharing dist.now).n) edges.now × (length edges.now ≤ MAX_EDGES)
            × AreCounts (D.sharing dist.now).n (incidences 0 edges.now) degrees.now }
        ensures { IfSome own.exit.now (HasRowsOf (D.sharing dist.entry.now) edges.entry.now r) }
    {
        *own = own_rows(alloc, dist, RankNo(r as u32), edges, degrees).ok();
    };
    let ranks = dist.ranks().count() as usize;
    for_each_mut(token, made, threads.min(ranks), &make);
}

// The arcs that one rank keeps, in the order of the edges.
fn own_rows<D: Distribution>(
    alloc: Global,
    dist: &D,
    rank: RankNo,
    edges: &[Edge],
    degrees: &[u32],
) -> Result<ArcRows, AllocError>
    requires rank { rank.0 < (D.sharing dist.now).ranks }
    requires within { All (IsEdge (D.sharing dist.now).n) edges.now }
    requires few { length edges.now ≤ MAX_EDGES }
    requires degrees { AreCounts (D.sharing dist.now).n (incidences 0 edges.now) degrees.now }
    ensures { IfOk result (HasRowsOf (D.sharing dist.now) edges.now rank.0) }
{
    let vertices = own_vertices(alloc, dist, rank)?;
    let mut rows = rows_for(alloc, &vertices, degrees)?;
    fill_own(dist, rank, edges, &mut rows);
    Ok(rows)
}

// The rows of all ranks. `Err` where a rank has none.
fn taken(alloc: Global, made: Vec<Option<ArcRows>>) -> Result<Vec<ArcRows>, AllocError>
    ensures { IfOk result (λ rows. map Some rows.items ≡ made.items) }
{
    let mut rows = Vec::with_capacity(alloc, made.len())?;
    for own in made {
        match own {
            Some(own) => rows.push(own)?,
            None => return Err(AllocError),
        }
    }
    Ok(rows)
}
