//! One rank's part of a divided graph.

ghost use Rattle.std.specs.Prelude.{◌≡◌, ◌≢◌, ◌<◌, ◌≤◌, All, AllPairs, IfOk, length, slice_index};
ghost use Rattle.pg_adj.specs.ArcSlots.{AreSlotsOf};
ghost use Rattle.pg_adj.specs.Portions.{IsOwnArc, IsForeign, IsVertex, IsPortion};
ghost use Rattle.pg_base.specs.Keyed.{row_of};

use crate::arc_slots::slots_of;
use crate::holders::HolderRows;
use crate::shares::Share;
use crate::{Arc, Ghost, Holder};
use pg_base::rows::row_at;
use pg_base::{OutOfMemory, RankNo, Ranks, Vertex};
use std::alloc::Global;
use std::marker::Model;

/// What one rank holds of a divided graph: its own vertices, with the arcs and the holders of each, and its ghosts. Own
/// vertices have the places from 0 to `count` - 1, ghosts the slots from 0.
///
/// Source: Gregor and Lumsdaine, Lifting Sequential Graph Algorithms for Distributed-Memory Parallel Computation
/// (OOPSLA 2005): distributed adjacency lists and ghost cells.
#[derive(Debug, Drop)]
pub struct Part {
    rank: RankNo,
    ranks: Ranks,
    n: u32,
    vertices: Vec<u32>,
    bounds: Vec<u32>,
    arcs: Vec<Arc>,
    ghosts: Vec<Ghost>,
    holder_bounds: Vec<u32>,
    holders: Vec<Holder>,
}

impl Model for Part {
    ghost use Rattle.pg_adj.specs.Portions.{Portion, IsPortion};

    ghost Value = { Portion };

    ghost view = { λ p. record {
      rank = p.rank.0;
      ranks = p.ranks;
      n = p.n;
      vertices = p.vertices.items;
      bounds = p.bounds.items;
      arcs = p.arcs.items;
      ghosts = p.ghosts.items;
      holder_bounds = p.holder_bounds.items;
      holders = p.holders.items;
    } };

    ghost invariant = { λ p. IsPortion (record {
      rank = p.rank.0;
      ranks = p.ranks;
      n = p.n;
      vertices = p.vertices.items;
      bounds = p.bounds.items;
      arcs = p.arcs.items;
      ghosts = p.ghosts.items;
      holder_bounds = p.holder_bounds.items;
      holders = p.holders.items;
    }) };
}

impl Part {
    // A rank's share with the holders of its vertices.
    pub(crate) fn of_share(
        rank: RankNo,
        ranks: Ranks,
        n: u32,
        share: Share,
        rows: HolderRows,
    ) -> Part
        requires { IsPortion (record {
          rank = rank.0;
          ranks = ranks;
          n = n;
          vertices = share.vertices.items;
          bounds = share.rows.bounds.items;
          arcs = share.rows.arcs.items;
          ghosts = share.ghosts.items;
          holder_bounds = rows.bounds.items;
          holders = rows.holders.items;
        }) }
        ensures { result ≡ record {
          rank = rank.0;
          ranks = ranks;
          n = n;
          vertices = share.vertices.items;
          bounds = share.rows.bounds.items;
          arcs = share.rows.arcs.items;
          ghosts = share.ghosts.items;
          holder_bounds = rows.bounds.items;
          holders = rows.holders.items;
        } }
    {
        Part {
            rank,
            ranks,
            n,
            vertices: share.vertices,
            bounds: share.rows.bounds,
            arcs: share.rows.arcs,
            ghosts: share.ghosts,
            holder_bounds: rows.bounds,
            holders: rows.holders,
        }
    }

    /// The rank that holds this part.
    pub fn rank(&self) -> RankNo
        ensures value { result.0 ≡ self.now.rank }
        ensures below { result.0 < self.now.ranks }
    {
        self.rank
    }

    /// How many ranks the graph is divided among.
    pub fn ranks(&self) -> Ranks
        ensures { result ≡ self.now.ranks }
    {
        self.ranks
    }

    /// The number of vertices of the whole graph.
    pub fn n(&self) -> u32
        ensures value { result ≡ self.now.n }
        ensures portion { IsPortion self.now }
    {
        self.n
    }

    /// How many vertices this rank owns. They ascend with their places.
    pub fn count(&self) -> u32
        ensures value { result ≡ length self.now.vertices }
        ensures ascend { AllPairs (λ v w. v < w) self.now.vertices }
        ensures portion { IsPortion self.now }
    {
        self.vertices.len() as u32
    }

    /// The own vertex at the place `i`, from 0.
    pub fn vertex(&self, i: u32) -> Vertex
        requires { i < length self.now.vertices }
        ensures value { result.0 ≡ slice_index self.now.vertices i }
        ensures first { 1 ≤ result.0 }
        ensures last { result.0 ≤ self.now.n }
    {
        Vertex(self.vertices[i as usize])
    }

    /// The arcs from the own vertex at the place `i`, ascending in `to`.
    pub fn arcs(&self, i: u32) -> &[Arc]
        requires { i < length self.now.vertices }
        ensures row { result.now ≡ row_of self.now.bounds self.now.arcs i }
        ensures own { All (IsOwnArc self.now) result.now }
        ensures ascend { AllPairs (λ a b. a.to.0 < b.to.0) result.now }
    {
        row_at(&self.bounds, &self.arcs, i + 1)
    }

    /// The vertices of other ranks that an own vertex has an arc to, ascending, each once. None of them is an own one.
    pub fn ghosts(&self) -> &[Ghost]
        ensures value { result.now ≡ self.now.ghosts }
        ensures foreign { All (λ g. IsForeign self.now g.home.0) result.now }
        ensures vertices { All (λ g. IsVertex self.now.n g.vertex.0) result.now }
        ensures ascend { AllPairs (λ g h. g.vertex.0 < h.vertex.0) result.now }
        ensures apart { All (λ g. All (λ v. v ≢ g.vertex.0) self.now.vertices) result.now }
    {
        &self.ghosts
    }

    /// For each arc, place after place, the slot of the ghost that it leads to, which is its index in `ghosts`; `None`
    /// where it leads to no ghost. `beside` gives the slots of one place. Takes time linear in the graph's vertices
    /// and the part's arcs, 8 bytes an arc for the answer, and meanwhile 8 bytes for each vertex of the graph.
    /// `OutOfMemory` comes only where an allocation is refused.
    pub fn slots(&self, alloc: Global) -> Result<Vec<Option<u32>>, OutOfMemory>
        ensures { IfOk result (λ slots. AreSlotsOf self.now.ghosts self.now.arcs slots.items) }
    {
        slots_of(alloc, self.n, &self.ghosts, &self.arcs).map_err(|_| OutOfMemory)
    }

    /// The items of the arcs from the own vertex at the place `i`. `items` has one for each arc of the part, in the
    /// order of `slots`.
    pub fn beside<'a, T>(&self, i: u32, items: &'a [T]) -> &'a [T]
        requires place { i < length self.now.vertices }
        requires each { length items.now ≡ length self.now.arcs }
        ensures { result.now ≡ row_of self.now.bounds items.now i }
    {
        row_at(&self.bounds, items, i + 1)
    }

    /// The ranks that hold the own vertex at the place `i` as a ghost, ascending.
    pub fn holders(&self, i: u32) -> &[Holder]
        requires { i < length self.now.vertices }
        ensures row { result.now ≡ row_of self.now.holder_bounds self.now.holders i }
        ensures foreign { All (λ h. IsForeign self.now h.rank.0) result.now }
        ensures ascend { AllPairs (λ a b. a.rank.0 < b.rank.0) result.now }
    {
        row_at(&self.holder_bounds, &self.holders, i + 1)
    }
}
