//! What is still to be sent to the owners of a rank's ghosts.

ghost use Rattle.std.specs.Prelude.{◌≡◌, ◌<◌, ◌≤◌, true, false, All, Some, None, IfOk, IfSome, length, replicate, slice_set, slice_index_or};
ghost use Rattle.std.specs.Vec.{vec_capacity};
ghost use Rattle.pg_cells.specs.PendingPuts.{ArePending, is_pending, next_slot};

use std::alloc::{AllocError, Global};

/// What is pending for the owners of a rank's ghosts: puts that are owed, or a note that the ghost's value is to be
/// sent.
#[derive(Drop)]
pub struct PendingPuts {
    /// What is owed for each slot, from 0 up to as many as puts may be owed for.
    pub owed: Vec<Option<u64>>,
    /// Whether the ghost of each slot is noted, from 0 up to as many as may be noted.
    pub noted: Vec<bool>,
    // The slots for which something is pending, each once.
    pub slots: Vec<u32>,
    ghost listed: { ArePending owed.items noted.items slots.items },
    ghost owed_room: { length owed.items ≤ vec_capacity slots },
    ghost noted_room: { length noted.items ≤ vec_capacity slots },
}

impl PendingPuts {
    /// Nothing pending, with room for puts owed for the first `puts` slots and for notes of the first `notes` slots.
    pub fn new(alloc: Global, puts: usize, notes: usize) -> Result<PendingPuts, AllocError>
        ensures owed { IfOk result (λ pending_puts. pending_puts.owed.items ≡ replicate puts None) }
        ensures noted { IfOk result (λ pending_puts. pending_puts.noted.items ≡ replicate notes false) }
    {
        Ok(PendingPuts {
            owed: vec![in alloc; None; puts]?,
            noted: vec![in alloc; false; notes]?,
            slots: Vec::with_capacity(alloc, puts.max(notes))?,
        })
    }

    /// Owes this value for the slot, in place of what was owed for it.
    pub fn owe(&mut self, slot: u32, value: u64)
        requires { slot < length self.old.owed.items }
        ensures owed { self.new.owed.items ≡ slice_set self.old.owed.items slot (Some value) }
        ensures noted { self.new.noted.items ≡ self.old.noted.items }
    {
        if !self.is_pending(slot) {
            self.slots.push_reserved(slot);
        }
        self.owed[slot as usize] = Some(value);
    }

    /// Notes the slot.
    pub fn note(&mut self, slot: u32)
        requires { slot < length self.old.noted.items }
        ensures owed { self.new.owed.items ≡ self.old.owed.items }
        ensures noted { self.new.noted.items ≡ slice_set self.old.noted.items slot true }
    {
        if !self.is_pending(slot) {
            self.slots.push_reserved(slot);
        }
        self.noted[slot as usize] = true;
    }

    /// What is owed for the slot.
    pub fn owed_for(&self, slot: u32) -> Option<u64>
        ensures { result ≡ slice_index_or self.now.owed.items slot None }
    {
        match self.owed.get(slot as usize) {
            Some(owed) => *owed,
            None => None,
        }
    }

    /// Whether the ghost of the slot is noted.
    pub fn is_noted(&self, slot: u32) -> bool
        ensures { result ≡ slice_index_or self.now.noted.items slot false }
    {
        match self.noted.get(slot as usize) {
            Some(noted) => *noted,
            None => false,
        }
    }

    /// A slot for which something is pending, if there is one.
    pub fn next(&self) -> Option<u32>
        ensures latest { result ≡ next_slot self.now.slots.items }
        ensures pending_put { IfSome result (λ slot. is_pending self.now.owed.items self.now.noted.items slot ≡ true) }
        ensures owed { result ≡ None → All (λ owed. owed ≡ None) self.now.owed.items }
        ensures noted { result ≡ None → All (λ noted. noted ≡ false) self.now.noted.items }
    {
        self.slots.last().copied()
    }

    /// Nothing is pending any more for the slot, which is the one that `next` answers.
    pub fn settle(&mut self, slot: u32)
        requires { next_slot self.old.slots.items ≡ Some slot }
        ensures owed { self.new.owed.items ≡ slice_set self.old.owed.items slot None }
        ensures noted { self.new.noted.items ≡ slice_set self.old.noted.items slot false }
    {
        self.slots.pop();
        write(&mut self.owed, slot as usize, None);
        write(&mut self.noted, slot as usize, false);
    }

    // Whether something is pending for the slot.
    fn is_pending(&self, slot: u32) -> bool
        ensures { result ≡ is_pending self.now.owed.items self.now.noted.items slot }
    {
        self.owed_for(slot).is_some() || self.is_noted(slot)
    }
}

// Writes the value into the place, if there is such a place.
fn write<T: Copy + Drop>(items: &mut Vec<T>, place: usize, value: T)
    ensures { items.new.items ≡ slice_set items.old.items place value }
{
    if let Some(item) = items.get_mut(place) {
        *item = value;
    }
}
