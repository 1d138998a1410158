//! The colours of a vertex's neighbours, as its rank sees them.
ghost use Rattle.std.specs.Prelude.{◌≡◌, ◌↔◌, ℕ, ◌<◌, ◌≤◌, ◌^◌, length};
ghost use Rattle.pg_adj.specs.ArcSlots.{AreSlotsOf, IsSlotOf};
ghost use Rattle.pg_adj.specs.Portions.{IsOwnArc, IsPortion};
ghost use Rattle.pg_cells.specs.Shown.{state_of};
ghost use Rattle.pg_colour.specs.Palettes.{IsMarked};
ghost use Rattle.pg_colour.specs.Passes.{EndsAt, IsLeastFree, IsTaken, row};
ghost use Rattle.pg_colour.specs.Seen.{at_places, at_slots};

use crate::NO_COLOUR;
use crate::palettes::Palette;
use pg_adj::{Arc, Part};
use pg_cells::{Cells, LastWins};

/// The colour with which the ghost in the slot is seen, or [`NO_COLOUR`].
pub(crate) fn seen(cells: &Cells<LastWins>, slot: u32) -> u64
    requires { slot < length cells.now.part.value.ghosts }
    ensures { result ≡ at_slots (state_of cells.now).ghosts slot }
{
    cells.at_slot(slot).unwrap_or(NO_COLOUR)
}

// The colour at which an arc ends, at an own vertex or at the ghost in the slot, or NO_COLOUR.
fn end_of(part: &Part, cells: &Cells<LastWins>, arc: &Arc, slot: Option<u32>) -> u64
    requires cells { cells.now.part.value ≡ part.now }
    requires portion { IsPortion part.now }
    requires own { IsOwnArc part.now arc.now }
    requires slot { IsSlotOf part.now.ghosts arc.now.to.0 slot }
    ensures { (d : ℕ) → d < NO_COLOUR → EndsAt part.now (at_places (state_of cells.now).own) (at_slots (state_of cells.now).ghosts) arc.now d ↔ (result ≡ d) }
{
    if arc.home == part.rank() {
        return cells.at_place(arc.place);
    }
    match slot {
        Some(slot) => seen(cells, slot),
        None => NO_COLOUR,
    }
}

// Takes the colour of each neighbour of the vertex at the place.
fn take_neighbours(
    part: &Part,
    cells: &Cells<LastWins>,
    slots: &[Option<u32>],
    place: u32,
    palette: &mut Palette,
)
    requires cells { cells.now.part.value ≡ part.now }
    requires place { place < length part.now.vertices }
    requires slots { AreSlotsOf part.now.ghosts part.now.arcs slots.now }
    requires free { (d : ℕ) → IsMarked palette.old.stamps.items palette.old.stamp d → ⊥ }
    ensures marked { (d : ℕ) → d < length palette.old.stamps.items → d < NO_COLOUR → IsMarked palette.new.stamps.items palette.new.stamp d ↔ IsTaken part.now (at_places (state_of cells.now).own) (at_slots (state_of cells.now).ghosts) place d }
    ensures small { length (row part.now place) < 2 ^ 32 }
    ensures few { (c : ℕ) → ((d : ℕ) → d < c → IsTaken part.now (at_places (state_of cells.now).own) (at_slots (state_of cells.now).ghosts) place d) → c ≤ length (row part.now place) }
    ensures count { length palette.new.stamps.items ≡ length palette.old.stamps.items }
{
    let arcs = part.arcs(place);
    let slots = part.beside(place, slots);
    let _n = part.n();
    for (k, arc) in arcs.iter().enumerate() {
        palette.take(end_of(part, cells, arc, slots[k]));
    }
}

/// The least colour that no neighbour of the vertex at the place has.
pub(crate) fn least_free(
    part: &Part,
    cells: &Cells<LastWins>,
    slots: &[Option<u32>],
    place: u32,
    palette: &mut Palette,
) -> u64
    requires cells { cells.now.part.value ≡ part.now }
    requires place { place < length part.now.vertices }
    requires slots { AreSlotsOf part.now.ghosts part.now.arcs slots.now }
    requires colours { length (row part.now place) < length palette.old.stamps.items }
    ensures least { IsLeastFree part.now (at_places (state_of cells.now).own) (at_slots (state_of cells.now).ghosts) place result }
    ensures small { result < 2 ^ 32 }
    ensures count { length palette.new.stamps.items ≡ length palette.old.stamps.items }
{
    palette.free_all();
    take_neighbours(part, cells, slots, place, palette);
    palette.least_free() as u64
}
