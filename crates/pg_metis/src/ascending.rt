//! The edges of a graph file where the neighbours ascend in every line.
//!
//! The arcs to greater vertices then are the edges in order, and those to lesser vertices come to each lesser end in the
//! order of its edges. So a cursor for each vertex, which goes through the edges from it, meets them all. In the order of
//! the arcs each would reach for another place in memory. So they are put into blocks of lesser ends before, and the edges
//! from the vertices of one block stay in the cache. There are as many arcs to a block as edges from it: the arcs begin
//! where the edges do.

ghost use Rattle.std.specs.Prelude.{◌≡◌, ◌≢◌, ◌+◌, ◌*◌, ◌/◌, ◌^◌, ◌<◌, ◌≤◌, [], true, IfOk, IfSome, length, slice_index, slice_set, All, AllPairs, Contains};
ghost use Rattle.pg_base.specs.declared.TheConstants.{MAX_EDGES, MAX_VERTICES};
ghost use Rattle.pg_base.specs.Graph.{Precedes};
ghost use Rattle.pg_metis.specs.Ascending.{AreBackOrBlank, IsAtCursor};
ghost use Rattle.pg_metis.specs.Mirrors.{forth_edges};
ghost use Rattle.pg_metis.specs.Pairing.{arc_of, arcs_named, AreEdgesOf, AreNamed};

use crate::pairing::{NamedArc, edge_from, edge_to};
use pg_base::{Edge, MAX_VERTICES};
use std::alloc::{AllocError, Global};

/// How many vertices a block has.
const BLOCK: u32 = 4096;

/// How many blocks there are, where the first begins with the vertex 0, which isn't one.
const BLOCKS: u32 = MAX_VERTICES / BLOCK + 1;

/// Stands where no edge was put yet.
const BLANK: Edge = Edge { u: 0, v: 0, w: 0 };

/// The edges whose two directions the arcs are, ascending, where the arcs ascend too. `None` says nothing of the arcs.
/// Takes time and memory linear in n and the arcs.
pub(crate) fn ascending_edges(
    alloc: Global,
    n: u32,
    arcs: &[NamedArc],
) -> Result<Option<Vec<Edge>>, AllocError>
    requires few { n ≤ MAX_VERTICES }
    requires size { length arcs.now ≤ 2 * MAX_EDGES }
    requires named { AreNamed n (arcs_named arcs.now) }
    ensures { IfOk result (λ found. IfSome found (λ edges. AreEdgesOf n (arcs_named arcs.now) edges.items)) }
{
    let mut edges = Vec::with_capacity(alloc, arcs.len() / 2)?;
    let mut back = vec![in alloc; BLANK; arcs.len() / 2]?;
    let mut cursors = vec![in alloc; 0; n as usize + 1]?;
    if !split(arcs, &mut edges, &mut back, &mut cursors)? {
        return Ok(None);
    }
    if 2 * edges.len() != arcs.len() || !all_met(&back, &edges, &mut cursors) {
        return Ok(None);
    }
    Ok(Some(edges))
}

/// Puts the edges of the arcs to greater vertices into `edges`, and those of the others by blocks into `back`. Says
/// whether the former ascend and there is room for the latter. Sets the cursors before the edges from each vertex, which no
/// clause says: with other cursors `all_met` answers false.
fn split(
    arcs: &[NamedArc],
    edges: &mut Vec<Edge>,
    back: &mut [Edge],
    cursors: &mut [u32],
) -> Result<bool, AllocError>
    requires named { AreNamed MAX_VERTICES (arcs_named arcs.now) }
    requires few { All (λ a. a.from < length cursors.old) (arcs_named arcs.now) }
    requires size { length arcs.now ≤ 2 * MAX_EDGES }
    requires room { length back.old < 2 ^ 32 }
    requires none { edges.old.items ≡ [] }
    requires blank { All (λ e. e.u ≡ 0) back.old }
    ensures edges { IfOk result (λ done. done ≡ true → edges.new.items ≡ forth_edges (arcs_named arcs.now)) }
    ensures ascending { IfOk result (λ done. done ≡ true → AllPairs Precedes edges.new.items) }
    ensures back { IfOk result (λ done. done ≡ true → AreBackOrBlank (arcs_named arcs.now) back.new) }
{
    let mut ends = [0; BLOCKS as usize];
    let mut last = BLANK;
    for arc in arcs {
        if arc.to < arc.from {
            if !put_back(edge_from(*arc), &mut ends, back) {
                return Ok(false);
            }
        } else {
            let edge = edge_to(*arc);
            if !precedes(last, edge) {
                return Ok(false);
            }
            begin_row(last.u, edge.u, edges.len() as u32, cursors, &mut ends);
            edges.push(edge)?;
            last = edge;
        }
    }
    Ok(true)
}

/// Puts the edge where its block has grown to, and says whether there is such a place.
fn put_back(edge: Edge, ends: &mut [u32], back: &mut [Edge]) -> bool
    requires vertex { edge.u / BLOCK < length ends.old }
    requires room { length back.old < 2 ^ 32 }
    ensures back { result ≡ true → back.new ≡ slice_set back.old (slice_index ends.old (edge.u / BLOCK)) edge }
    ensures end { result ≡ true → slice_index ends.new (edge.u / BLOCK) ≡ slice_index ends.old (edge.u / BLOCK) + 1 }
{
    let end = &mut ends[(edge.u / BLOCK) as usize];
    let place = *end as usize;
    if place >= back.len() {
        return false;
    }
    back[place] = edge;
    *end += 1;
    true
}

/// Whether the edge `next` comes after `last`.
fn precedes(last: Edge, next: Edge) -> bool
    ensures { result ≡ true → Precedes last next }
{
    last.u < next.u || last.u == next.u && last.v < next.v
}

/// Sets the cursor of the vertex `u` where its edges begin, behind `count` others, unless the edge before them is
/// from `u` too. If that one is from another block, the block of `u` begins there.
fn begin_row(before: u32, u: u32, count: u32, cursors: &mut [u32], ends: &mut [u32])
    requires vertex { u < length cursors.old }
    requires block { u / BLOCK < length ends.old }
    ensures cursor { before ≢ u → slice_index cursors.new u ≡ count }
    ensures end { before / BLOCK ≢ u / BLOCK → slice_index ends.new (u / BLOCK) ≡ count }
{
    if before != u {
        cursors[u as usize] = count;
    }
    if before / BLOCK != u / BLOCK {
        ends[(u / BLOCK) as usize] = count;
    }
}

/// Whether each edge of `back` is the one at the cursor of its lesser end, when those before it have moved it on.
fn all_met(back: &[Edge], edges: &[Edge], cursors: &mut [u32]) -> bool
    requires vertices { All (λ e. e.u < length cursors.old) back.now }
    requires ascending { AllPairs Precedes edges.now }
    requires size { length edges.now < 2 ^ 32 }
    ensures among { result ≡ true → All (Contains edges.now) back.now }
    ensures once { result ≡ true → AllPairs (λ d e. d ≢ e) back.now }
{
    for edge in back {
        if !meets_next(*edge, edges, cursors) {
            return false;
        }
    }
    true
}

/// Whether the edge is the one at the cursor of its lesser end. Moves the cursor on.
fn meets_next(edge: Edge, edges: &[Edge], cursors: &mut [u32]) -> bool
    requires vertex { edge.u < length cursors.old }
    requires size { length edges.now < 2 ^ 32 }
    ensures met { result ≡ true → IsAtCursor edge edges.now cursors.old }
    ensures moved { result ≡ true → cursors.new ≡ slice_set cursors.old edge.u (slice_index cursors.old edge.u + 1) }
{
    let cursor = &mut cursors[edge.u as usize];
    let place = *cursor as usize;
    if place >= edges.len() || edges[place] != edge {
        return false;
    }
    *cursor += 1;
    true
}
