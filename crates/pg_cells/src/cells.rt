//! What a rank keeps of a property map: its cells, and what is still to be sent of them.

ghost use Rattle.std.specs.Prelude.{◌≡◌, ℕ, ◌<◌, false, true, [], All, None, length, slice_index_or, is_some};
ghost use Rattle.pg_adj.specs.Portions.{IsForeign};
ghost use Rattle.pg_cells.specs.States.{refreshes_of};

use crate::pending_puts::PendingPuts;
use crate::places::Places;
use crate::refreshes::Refreshes;
use crate::slots::Slots;
use crate::{Flags, Phase};
use pg_adj::Part;
use std::snapshot::Snapshot;

/// A property map over one rank's part of a divided graph: a value for each of its own vertices and of its ghosts.
///
/// Between two synchronizes values are put, which join what the cells hold. A synchronize begins on each rank with
/// `close`, in the same round on all of them. It ends with that round, or with backward one round later; each ghost
/// then holds what the flags say.
///
/// Source: the distributed property maps of the Parallel Boost Graph Library.
#[derive(Drop)]
pub struct Cells<R> {
    pub(crate) resolver: R,
    pub(crate) flags: Flags,
    pub(crate) phase: Phase,
    pub(crate) places: Places,
    pub(crate) slots: Slots,
    pub(crate) own: Vec<u64>,
    // None where the ghost was emptied.
    pub(crate) ghosts: Vec<Option<u64>>,
    pub(crate) pending_puts: PendingPuts,
    pub(crate) refreshes: Refreshes,
    pub(crate) part: Snapshot<Part>,
    ghost vertices: { places.vertices.items ≡ part.value.vertices },
    ghost held: { slots.held.items ≡ part.value.ghosts },
    ghost homes: { All (λ g. IsForeign part.value g.home.0) slots.held.items },
    ghost holders: { All (λ pending. IsForeign part.value pending.holder.rank.0) refreshes.entries.items },
    ghost pending_places: { All (λ pending. pending.place < length own.items) refreshes.entries.items },
    ghost entries: { refreshes.entries.items ≡ refreshes_of part.value },
    ghost own_each: { length own.items ≡ length part.value.vertices },
    ghost ghosts_each: { length ghosts.items ≡ length slots.held.items },
    ghost owed_each: { flags.forward ≡ true → length pending_puts.owed.items ≡ length slots.held.items },
    ghost owed_none: { flags.forward ≡ false → pending_puts.owed.items ≡ [] },
    ghost noted_each: { flags.flush ≡ true → length pending_puts.noted.items ≡ length slots.held.items },
    ghost noted_none: { flags.flush ≡ false → pending_puts.noted.items ≡ [] },
    ghost noted_values: { (slot : ℕ) → slice_index_or pending_puts.noted.items slot false ≡ true → is_some (slice_index_or ghosts.items slot None) ≡ true },
}
