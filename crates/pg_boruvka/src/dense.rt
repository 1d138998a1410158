//! What a rank of Borůvka's method keeps, and how it begins.
ghost use Rattle.std.specs.Prelude.{◌≡◌, ℕ, ◌+◌, ◌<◌, ◌≤◌, true, All, IfOk, length};
ghost use Rattle.pg_base.specs.declared.TheConstants.{MAX_EDGES, MAX_VERTICES};
ghost use Rattle.pg_adj.specs.Portions.{IsPortion};
ghost use Rattle.pg_boruvka.specs.Portions.{arcs_below};
ghost use Rattle.pg_boruvka.specs.Orderly.{IsOrderly};

use crate::arcs::arcs_of;
use crate::blocks::{count_labels, first_label};
use crate::tables::Tables;
use crate::{Phases, chosen};
use pg_adj::Part;
use pg_base::{OutOfMemory, RankNo, Ranks};
use pg_group::Vote;
use std::alloc::Global;
use std::snapshot::Snapshot;

/// A round of a phase, by what is sent in it: best keys to the reducers of their labels, winners to every rank, and
/// hooks.
#[derive(Clone, Copy, Debug, PartialEq, Eq)]
pub(crate) enum Stage {
    Up,
    Down,
    Hook,
}

/// The rank program that chooses the least spanning forest of a divided graph. Every rank keeps a label of every
/// vertex. In each phase every label that an edge leaves is joined to another by the least such edge, and the chosen
/// edges are the same on all ranks.
///
/// Source: Borůvka, O jistém problému minimálním (1926); Dehne and Götz, Practical parallel algorithms for minimum
/// spanning trees (1998): dense Borůvka, with labels that every rank keeps.
#[derive(Drop)]
pub struct Dense {
    pub(crate) part: Snapshot<Part>,
    pub(crate) rank: RankNo,
    pub(crate) ranks: Ranks,
    pub(crate) n: u32,
    pub(crate) tables: Tables,
    // This round's messages to the ranks below `to` were sent, and to it those whose numbers are below `at`.
    pub(crate) to: u32,
    pub(crate) at: u32,
    pub(crate) stage: Stage,
    pub(crate) idle: bool,
    pub(crate) cast: Option<Vote>,
    pub(crate) ended: bool,
    pub(crate) phases: Phases,
    ghost is_rank: { part.value.rank ≡ rank.0 },
    ghost is_size: { part.value.ranks ≡ ranks },
    ghost is_count: { part.value.n ≡ n },
    ghost is_portion: { IsPortion part.value },
    ghost each_label: { length tables.labels.items ≡ n + 1 },
    ghost orderly: { All (IsOrderly n) (arcs_below part.value (length part.value.vertices)) },
    ghost rests: { idle ≡ true → ranks ≤ to },
}

impl Dense {
    ghost use Rattle.pg_boruvka.specs.Winners.{first_label, labels_of};
    ghost use Rattle.pg_boruvka.specs.Portions.{part_of};
    ghost use Rattle.pg_boruvka.specs.Known.{part_in, edges_in};
    ghost use Rattle.pg_boruvka.specs.Shown.{IsNewDense};

    /// The program of one part of a graph with this many edges. Each vertex is its own label, and no edge is chosen.
    /// Takes 16 bytes for each arc, 32 for each vertex of the graph, and one for each edge. `OutOfMemory` comes only
    /// where an allocation is refused.
    pub fn new(alloc: Global, part: Part, edges: u32) -> Result<Dense, OutOfMemory>
        requires few { edges ≤ MAX_EDGES }
        requires each { All (λ a. a.edge < edges) (part_of edges part).arcs }
        ensures new { IfOk result (λ d. IsNewDense d) }
        ensures part { IfOk result (λ d. part_in d ≡ part_of edges part) }
    {
        let snapshot = Snapshot::of(&part);
        let arcs = arcs_of(alloc, &part)?;
        let n = part.n();
        let Ok(tables) = Tables::new(alloc, arcs, n, edges) else {
            return Err(OutOfMemory);
        };
        let mut dense = Dense {
            part: snapshot,
            rank: part.rank(),
            ranks: part.ranks(),
            n,
            tables,
            to: 0,
            at: 0,
            stage: Stage::Up,
            idle: false,
            cast: None,
            ended: false,
            phases: Phases::None,
        };
        let (first, past) = dense.own_labels();
        dense.tables.begin_phase(first, past);
        Ok(dense)
    }

    /// The indices, from 0, of the edges that were chosen in the phases that have ended, ascending. Takes 4 bytes for
    /// each. `OutOfMemory` comes only where an allocation is refused.
    pub fn edges(&self, alloc: Global) -> Result<Vec<u32>, OutOfMemory>
        ensures { IfOk result (λ edges. edges.items ≡ edges_in self.now) }
    {
        chosen::list(alloc, &self.tables.chosen).map_err(|_| OutOfMemory)
    }

    // The labels of a rank: the first, and the one past the last.
    pub(crate) fn labels_of(&self, rank: RankNo) -> (u32, u32)
        requires { rank.0 < self.now.ranks }
        ensures first { result.0 ≡ first_label (part_in self.now) rank.0 }
        ensures past { result.1 ≡ first_label (part_in self.now) rank.0 + labels_of (part_in self.now) rank.0 }
        ensures least { 1 ≤ result.0 }
        ensures within { result.1 ≤ self.now.n + 1 }
    {
        let _n = self.tables.labels.len();
        let ranks = self.ranks.count();
        let first = first_label(self.n, ranks, rank.0);
        (first, first + count_labels(self.n, ranks, rank.0))
    }

    // The labels that this rank reduces: the first, and the one past the last.
    pub(crate) fn own_labels(&self) -> (u32, u32)
        ensures first { result.0 ≡ first_label (part_in self.now) (part_in self.now).rank }
        ensures past { result.1 ≡ first_label (part_in self.now) (part_in self.now).rank + labels_of (part_in self.now) (part_in self.now).rank }
        ensures least { 1 ≤ result.0 }
        ensures order { result.0 ≤ result.1 }
        ensures within { result.1 ≤ self.now.n + 1 }
    {
        self.labels_of(self.rank)
    }
}
