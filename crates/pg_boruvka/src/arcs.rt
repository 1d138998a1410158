//! The arcs of a part, with both ends.
ghost use Rattle.std.specs.Prelude.{◌≡◌, ℕ, ◌+◌, ◌-◌, ◌*◌, ◌%◌, ◌^◌, ◌<◌, ◌≤◌, ◌++◌, All, IfOk, OnOk, length, map, min, sum_by, slice_index};
ghost use Rattle.pg_base.specs.declared.TheConstants.{MAX_EDGES, MAX_VERTICES};
ghost use Rattle.pg_base.specs.Keyed.{row_of};
ghost use Rattle.pg_boruvka.specs.Arcs.{local, locals, IsInTables};
ghost use Rattle.pg_boruvka.specs.Portions.{local_of, arcs_below};

use pg_adj::{Arc, Part};
use pg_base::{MAX_EDGES, OutOfMemory};
use std::alloc::Global;

/// One direction of an edge. Its ends are the labels that they had when the phase began, at first the vertices.
#[derive(Clone, Copy, Debug, PartialEq, Eq)]
pub(crate) struct DenseArc {
    pub(crate) from: u32,
    pub(crate) to: u32,
    pub(crate) weight: u32,
    /// The edge's index.
    pub(crate) edge: u32,
}

impl DenseArc {
    // An arc of a part, which leads from this vertex.
    fn new(from: u32, arc: Arc) -> DenseArc
        ensures value { result ≡ record { from = from; to = arc.to.0; weight = arc.w; edge = arc.edge } }
        ensures small { result.weight < 2 ^ 32 }
    {
        DenseArc {
            from,
            to: arc.to.0,
            weight: arc.w,
            edge: arc.edge,
        }
    }

    /// The edge's key. Keys compare as weights and then indices, and differ.
    pub(crate) fn key(&self) -> u64
        requires { self.now.edge < MAX_EDGES }
        ensures value { result ≡ (local self.now).key }
        ensures small { result < 2 ^ 56 }
    {
        self.weight as u64 * MAX_EDGES as u64 + self.edge as u64
    }
}

/// The edge that has this key.
pub(crate) fn edge_of(key: u64) -> u32
    ensures { result ≡ key % MAX_EDGES }
{
    (key % MAX_EDGES as u64) as u32
}

/// The arcs of the part, place after place. Takes 16 bytes an arc.
pub(crate) fn arcs_of(alloc: Global, part: &Part) -> Result<Vec<DenseArc>, OutOfMemory>
    ensures locals { IfOk result (λ arcs. locals arcs.items ≡ arcs_below part.now (length part.now.vertices)) }
    ensures ends { IfOk result (λ arcs. (edges : ℕ) → All (λ a. a.edge < edges) part.now.arcs → All (IsInTables (part.now.n + 1) edges) arcs.items) }
    ensures small { IfOk result (λ arcs. All (λ a. a.weight < 2 ^ 32) arcs.items) }
{
    let Ok(mut arcs) = Vec::with_capacity(alloc, count_arcs(part)) else {
        return Err(OutOfMemory);
    };
    for place in 0..part.count() {
        push_arcs(part, place, &mut arcs)?;
    }
    Ok(arcs)
}

// How many arcs the part has.
fn count_arcs(part: &Part) -> usize
    ensures { result ≡ min (length (arcs_below part.now (length part.now.vertices))) (2 ^ 64 - 1) }
{
    let mut count: usize = 0;
    for place in 0..part.count() {
        count = count.saturating_add(part.arcs(place).len());
    }
    count
}

// Appends the arcs of the place.
fn push_arcs(part: &Part, place: u32, arcs: &mut Vec<DenseArc>) -> Result<(), OutOfMemory>
    requires { place < length part.now.vertices }
    ensures locals { OnOk result (locals arcs.new.items ≡ locals arcs.old.items ++ map (local_of (slice_index part.now.vertices place)) (row_of part.now.bounds part.now.arcs place)) }
    ensures ends { OnOk result ((edges : ℕ) → All (λ a. a.edge < edges) part.now.arcs → All (IsInTables (part.now.n + 1) edges) arcs.old.items
        → All (IsInTables (part.now.n + 1) edges) arcs.new.items) }
    ensures small { OnOk result (All (λ a. a.weight < 2 ^ 32) arcs.old.items → All (λ a. a.weight < 2 ^ 32) arcs.new.items) }
{
    let from = part.vertex(place).0;
    for arc in part.arcs(place) {
        if arcs.push(DenseArc::new(from, *arc)).is_err() {
            return Err(OutOfMemory);
        }
    }
    Ok(())
}
