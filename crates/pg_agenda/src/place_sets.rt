//! A set of places, in no order.
ghost use Rattle.std.specs.Prelude.{◌≡◌, ◌<◌, ◌≤◌, [], true, false, not, length, replicate, slice_set, IfOk, IfNone, IfSome};
ghost use Rattle.std.specs.List.{list_any};
ghost use Rattle.std.specs.Vec.{vec_capacity};
ghost use Rattle.pg_agenda.specs.LevelLists.{AreLevels, is_set, is_any};

use std::alloc::{AllocError, Global};

/// A set of places, of which any one is taken. Each call but `new` takes constant time and allocates nothing.
#[derive(Drop)]
pub(crate) struct PlaceSet {
    places: Vec<u32>,
    // Whether each place is in the set.
    members: Vec<bool>,
    ghost listed: { AreLevels members.items places.items [] },
    ghost room: { length members.items ≤ vec_capacity places },
}

impl PlaceSet {
    /// Room for places below `count`, none of them in the set.
    pub(crate) fn new(alloc: Global, count: usize) -> Result<PlaceSet, AllocError>
        ensures { IfOk result (λ set. set.members.items ≡ replicate count false) }
    {
        Ok(PlaceSet {
            places: Vec::with_capacity(alloc, count)?,
            members: vec![in alloc; false; count]?,
        })
    }

    /// Whether no place is in the set.
    pub(crate) fn is_empty(&self) -> bool
        ensures { result ≡ not (is_any self.now.members.items) }
    {
        self.places.is_empty()
    }

    /// Adds a place, which may be in the set already.
    pub(crate) fn add(&mut self, place: u32)
        requires { place < length self.old.members.items }
        ensures { self.new.members.items ≡ slice_set self.old.members.items place true }
    {
        if !self.members[place as usize] {
            self.places.push_reserved(place);
            self.members[place as usize] = true;
        }
    }

    /// Takes a place out of the set, if there is one.
    pub(crate) fn take(&mut self) -> Option<u32>
        ensures none { IfNone result (is_any self.old.members.items ≡ false) }
        ensures rests { IfNone result (self.new.members.items ≡ self.old.members.items) }
        ensures some { IfSome result (λ place. is_set self.old.members.items place ≡ true) }
        ensures within { IfSome result (λ place. place < length self.old.members.items) }
        ensures taken { IfSome result (λ place. self.new.members.items ≡ slice_set self.old.members.items place false) }
    {
        let place = self.places.pop()?;
        self.members[place as usize] = false;
        Some(place)
    }
}
