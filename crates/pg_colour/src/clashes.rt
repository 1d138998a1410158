//! Which vertices are coloured again.
ghost use Rattle.std.specs.Prelude.{◌≡◌, ◌↔◌, ℕ, ◌<◌, ◌≤◌, true, false, length, AllPairs, Contains};
ghost use Rattle.std.specs.Vec.{vec_capacity};
ghost use Rattle.pg_adj.specs.ArcSlots.{AreSlotsOf, IsSlotOf};
ghost use Rattle.pg_adj.specs.Portions.{IsPortion};
ghost use Rattle.pg_cells.specs.Shown.{state_of};
ghost use Rattle.pg_colour.specs.Clashes.{IsClashOver};
ghost use Rattle.pg_colour.specs.Passes.{IsClash};
ghost use Rattle.pg_colour.specs.Seen.{at_places, at_slots};

use crate::fitting::seen;
use pg_adj::{Arc, Part};
use pg_cells::{Cells, LastWins};

// Whether the arc leads from the place to a lesser vertex of another rank that is seen with the same colour, in this
// slot.
fn clashes_over(
    part: &Part,
    cells: &Cells<LastWins>,
    place: u32,
    arc: &Arc,
    slot: Option<u32>,
) -> bool
    requires cells { cells.now.part.value ≡ part.now }
    requires portion { IsPortion part.now }
    requires place { place < length part.now.vertices }
    requires slot { IsSlotOf part.now.ghosts arc.now.to.0 slot }
    ensures clash { result ≡ true → (s : ℕ) × IsClashOver part.now (at_places (state_of cells.now).own) (at_slots (state_of cells.now).ghosts) place arc.now s }
    ensures none { result ≡ false → (s : ℕ) → IsClashOver part.now (at_places (state_of cells.now).own) (at_slots (state_of cells.now).ghosts) place arc.now s → ⊥ }
{
    match slot {
        Some(slot) => arc.to < part.vertex(place) && seen(cells, slot) == cells.at_place(place),
        None => false,
    }
}

// Whether the vertex at the place has a lesser neighbour of another rank that is seen with its colour.
fn clashes(part: &Part, cells: &Cells<LastWins>, slots: &[Option<u32>], place: u32) -> bool
    requires cells { cells.now.part.value ≡ part.now }
    requires place { place < length part.now.vertices }
    requires slots { AreSlotsOf part.now.ghosts part.now.arcs slots.now }
    ensures { (result ≡ true) ↔ IsClash part.now (at_places (state_of cells.now).own) (at_slots (state_of cells.now).ghosts) place }
{
    let arcs = part.arcs(place);
    let slots = part.beside(place, slots);
    let _n = part.n();
    for (k, arc) in arcs.iter().enumerate() {
        if clashes_over(part, cells, place, arc, slots[k]) {
            return true;
        }
    }
    false
}

/// Leaves in the list the places of the vertices with a lesser neighbour of another rank that is seen with their
/// colour, in ascending order.
pub(crate) fn list_clashes(
    part: &Part,
    cells: &Cells<LastWins>,
    slots: &[Option<u32>],
    list: &mut Vec<u32>,
)
    requires cells { cells.now.part.value ≡ part.now }
    requires slots { AreSlotsOf part.now.ghosts part.now.arcs slots.now }
    requires room { length part.now.vertices ≤ vec_capacity list.old }
    ensures clashes { (place : ℕ) → Contains list.new.items place ↔ ((place < length part.now.vertices) × IsClash part.now (at_places (state_of cells.now).own) (at_slots (state_of cells.now).ghosts) place) }
    ensures ascend { AllPairs (λ k l. k < l) list.new.items }
    ensures few { length list.new.items ≤ length part.now.vertices }
    ensures room { vec_capacity list.new ≡ vec_capacity list.old }
{
    list.clear();
    for place in 0..part.count() {
        if clashes(part, cells, slots, place) {
            list.push_reserved(place);
        }
    }
}
