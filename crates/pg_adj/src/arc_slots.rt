//! In which slot of a part's ghosts each of its arcs ends.

ghost use Rattle.std.specs.Prelude.{◌≡◌, ℕ, ◌+◌, ◌^◌, ◌<◌, ◌≤◌, None, All, AllPairs, IfOk, length, map, slice_index_or};
ghost use Rattle.pg_adj.specs.ArcSlots.{IsSlotOf, AreSlotsOf};

use crate::{Arc, Ghost};
use std::alloc::{AllocError, Global};

/// For each arc, in order, the slot of the ghost that it leads to, or None where it leads to none. `n` is the number of
/// vertices. Takes 8 bytes a vertex beside the answer.
pub fn slots_of(
    alloc: Global,
    n: u32,
    ghosts: &[Ghost],
    arcs: &[Arc],
) -> Result<Vec<Option<u32>>, AllocError>
    requires few { length ghosts.now < 2 ^ 32 }
    requires held { All (λ g. g.vertex.0 ≤ n) ghosts.now }
    requires ascend { AllPairs (λ g h. g.vertex.0 < h.vertex.0) ghosts.now }
    requires ends { All (λ a. a.to.0 ≤ n) arcs.now }
    ensures { IfOk result (λ slots. AreSlotsOf ghosts.now arcs.now slots.items) }
{
    let table = slot_table(alloc, n, ghosts)?;
    let slots = slots_by(alloc, &table, arcs)?;
    Ok(slots)
}

// For each vertex from 0 to n the slot in which it is a ghost.
fn slot_table(alloc: Global, n: u32, ghosts: &[Ghost]) -> Result<Vec<Option<u32>>, AllocError>
    requires few { length ghosts.now < 2 ^ 32 }
    requires held { All (λ g. g.vertex.0 ≤ n) ghosts.now }
    requires ascend { AllPairs (λ g h. g.vertex.0 < h.vertex.0) ghosts.now }
    ensures size { IfOk result (λ table. length table.items ≡ n + 1) }
    ensures slot { IfOk result (λ table. (v : ℕ) → IsSlotOf ghosts.now v (slice_index_or table.items v None)) }
{
    let mut table = vec![in alloc; None; n as usize + 1]?;
    for (slot, held) in ghosts.iter().enumerate() {
        table[held.vertex.0 as usize] = Some(slot as u32);
    }
    Ok(table)
}

// The entries of the arcs' ends.
fn slots_by(
    alloc: Global,
    table: &[Option<u32>],
    arcs: &[Arc],
) -> Result<Vec<Option<u32>>, AllocError>
    requires { All (λ a. a.to.0 < length table.now) arcs.now }
    ensures { IfOk result (λ slots. slots.items ≡ map (λ a. slice_index_or table.now a.to.0 None) arcs.now) }
{
    let mut slots = Vec::with_capacity(alloc, arcs.len())?;
    for arc in arcs {
        slots.push(table[arc.to.0 as usize])?;
    }
    Ok(slots)
}
