//! The agenda of breadth-first search: places by levels.
ghost use Rattle.std.specs.Prelude.{◌≡◌, ◌≢◌, ◌⊎◌, ◌↔◌, ◌+◌, ◌%◌, ◌<◌, ◌≤◌, ℕ, Bool, true, false, [], ◌∷◌, ◌++◌, length, replicate, slice_set, IfOk, IfNone, IfSome, if◌then◌else◌};
ghost use Rattle.std.specs.Vec.{vec_capacity};
ghost use Rattle.pg_agenda.specs.Shares.{NONE, AreNone, AreSame, only_all, takes_all};
ghost use Rattle.pg_agenda.specs.declared.shares.Share.{Share};
ghost use Rattle.pg_agenda.specs.declared.shares.Share.TheVariants.{Light, Heavy, All};
ghost use Rattle.pg_agenda.specs.LevelLists.{AreLevels, IsLevelVote, is_set, is_in};

use crate::{Agenda, Share};
use pg_base::OutOfMemory;
use pg_group::Vote;
use std::alloc::{AllocError, Global};

/// The distributed queue: the places of this level, which are ready, and those of the next. `begin` takes a pass over
/// the places of the next level, each other call but `new` constant time.
///
/// Source: the distributed breadth-first search of the Parallel Boost Graph Library.
#[derive(Drop)]
pub struct Levels {
    this: Vec<u32>,
    next: Vec<u32>,
    // Whether each place is pending.
    pending: Vec<bool>,
    ghost listed: { AreLevels pending.items this.items next.items },
    ghost this_room: { length pending.items ≤ vec_capacity this },
    ghost next_room: { length pending.items ≤ vec_capacity next },
}

impl Levels {
    ghost use Rattle.pg_agenda.specs.LevelsShown.{place_count, pending_flags};

    /// Places below `count`, none of them pending. Allocates all the memory that the agenda needs. `Err` says that the
    /// run is out of memory.
    pub fn new(alloc: Global, count: u32) -> Result<Levels, OutOfMemory>
        ensures count { IfOk result (λ levels. place_count levels ≡ count) }
        ensures none { IfOk result (λ levels. (place : ℕ) → is_set (pending_flags levels) place ≡ false) }
    {
        match levels_of(alloc, count as usize) {
            Ok(levels) => Ok(levels),
            Err(_) => Err(OutOfMemory),
        }
    }

    // Puts a place that isn't pending in the next level. A pending place stays in its level.
    fn put(&mut self, place: u32)
        requires { place < length self.old.pending.items }
        ensures pending { self.new.pending.items ≡ slice_set self.old.pending.items place true }
        ensures this { self.new.this.items ≡ self.old.this.items }
        ensures stays { is_set self.old.pending.items place ≡ true → self.new.next.items ≡ self.old.next.items }
        ensures joins { is_set self.old.pending.items place ≡ false → self.new.next.items ≡ self.old.next.items ++ place ∷ [] }
    {
        if !self.pending[place as usize] {
            self.next.push_reserved(place);
            self.pending[place as usize] = true;
        }
    }

    // Takes a place of this level, if there is one.
    fn take(&mut self) -> Option<u32>
        ensures none { IfNone result (self.old.this.items ≡ []) }
        ensures rests { IfNone result (self.new.pending.items ≡ self.old.pending.items) }
        ensures empty { IfNone result (self.new.this.items ≡ []) }
        ensures ready { IfSome result (λ place. is_in self.old.this.items place ≡ true) }
        ensures was { IfSome result (λ place. is_set self.old.pending.items place ≡ true) }
        ensures within { IfSome result (λ place. place < length self.old.pending.items) }
        ensures pending { IfSome result (λ place. self.new.pending.items ≡ slice_set self.old.pending.items place false) }
    {
        let place = self.this.pop()?;
        self.pending[place as usize] = false;
        Some(place)
    }

    // Whether some place is pending.
    fn is_pending(&self) -> bool
        ensures none { result ≡ false → (place : ℕ) → is_set self.now.pending.items place ≡ false }
        ensures some { result ≡ true → (place : ℕ) × (is_set self.now.pending.items place ≡ true) }
    {
        !self.this.is_empty() || !self.next.is_empty()
    }

    // Makes the next level this one. What was still in this level stays in it.
    fn advance(&mut self)
        ensures pending { self.new.pending.items ≡ self.old.pending.items }
        ensures ready { (place : ℕ) → is_in self.new.this.items place ≡ is_set self.old.pending.items place }
    {
        while let Some(place) = self.next.pop() {
            self.this.push_reserved(place);
        }
    }
}

// The levels of a new agenda.
fn levels_of(alloc: Global, count: usize) -> Result<Levels, AllocError>
    ensures { IfOk result (λ levels. levels.pending.items ≡ replicate count false) }
{
    Ok(Levels {
        this: Vec::with_capacity(alloc, count)?,
        next: Vec::with_capacity(alloc, count)?,
        pending: vec![in alloc; false; count]?,
    })
}

impl Agenda for Levels {
    ghost use Rattle.std.specs.Prelude.{true};
    ghost use Rattle.pg_agenda.specs.Shares.{AreSame, takes_all};
    ghost use Rattle.pg_agenda.specs.LevelLists.{IsLevelVote, is_set};
    ghost use Rattle.pg_agenda.specs.LevelsShown.{place_count, pending_flags, this_level, next_level, pending_places, ready_places};

    ghost count = { place_count };

    ghost pending = { pending_places };

    ghost ready = { ready_places };

    ghost takes = { λ _. takes_all };

    ghost IsVote = { λ a. IsLevelVote (pending_flags a) };

    ghost HasBegun = { λ old votes new. AreSame (pending_places old) (ready_places new) };

    fn mark(&mut self, place: u32, _amount: u64)
        requires place { place < place_count self.old }
        ensures marked { (pending_places self.new All place ≡ true) ⊎ (pending_places self.new Light place ≡ true) }
        ensures heavy { pending_places self.new Heavy place ≡ pending_places self.old Heavy place }
        ensures others { (share : Share) (other : ℕ) → other ≢ place → pending_places self.new share other ≡ pending_places self.old share other }
        ensures same_count { place_count self.new ≡ place_count self.old }
        ensures same_takes { (share : Share) (w : ℕ) → takes_all share w ≡ takes_all share w }
        ensures whole { is_set (pending_flags self.new) place ≡ true }
        ensures same_level { this_level self.new ≡ this_level self.old }
        ensures stays { is_set (pending_flags self.old) place ≡ true → next_level self.new ≡ next_level self.old }
        ensures joins { is_set (pending_flags self.old) place ≡ false → next_level self.new ≡ next_level self.old ++ place ∷ [] }
    {
        self.put(place);
    }

    fn pop(&mut self) -> Option<(u32, Share)>
        ensures none { IfNone result (AreNone (ready_places self.old)) }
        ensures still { IfNone result (AreNone (ready_places self.new)) }
        ensures ready { IfSome result (λ got. ready_places self.old got.1 got.0 ≡ true) }
        ensures pending { IfSome result (λ got. pending_places self.old got.1 got.0 ≡ true) }
        ensures within { IfSome result (λ got. got.0 < place_count self.old) }
        ensures taken { IfSome result (λ got. pending_places self.new got.1 got.0 ≡ false) }
        ensures heavy { IfSome result (λ got. got.1 ≡ Light → pending_places self.new Heavy got.0 ≡ true) }
        ensures shares { IfSome result (λ got. (share : Share) → share ≢ got.1 → (got.1 ≡ Light → share ≢ Heavy) → pending_places self.new share got.0 ≡ pending_places self.old share got.0) }
        ensures others { IfSome result (λ got. (share : Share) (other : ℕ) → other ≢ got.0 → pending_places self.new share other ≡ pending_places self.old share other) }
        ensures rests { IfNone result (AreSame (pending_places self.old) (pending_places self.new)) }
        ensures whole { (w : ℕ) → takes_all All w ≡ true }
        ensures halves { (w : ℕ) → (takes_all Light w ≡ true) ⊎ (takes_all Heavy w ≡ true) }
        ensures same_count { place_count self.new ≡ place_count self.old }
        ensures same_takes { (share : Share) (w : ℕ) → takes_all share w ≡ takes_all share w }
        ensures share { IfSome result (λ got. got.1 ≡ All) }
    {
        match self.take() {
            Some(place) => Some((place, Share::All)),
            None => None,
        }
    }

    fn takes(&self, _share: Share, _w: u32) -> bool {
        true
    }

    fn vote(&mut self, sent: bool) -> Vote
        ensures form { IsLevelVote (pending_flags self.old) sent result }
        ensures odd { (result.b % 2 ≡ 1) ↔ (sent ≡ true) }
        ensures none { result.a ≡ NONE → result.b < 2 → AreNone (pending_places self.old) }
        ensures c { result.c ≡ 0 }
        ensures d { result.d ≡ 0 }
        ensures rests { AreSame (pending_places self.old) (pending_places self.new) }
        ensures same_count { place_count self.new ≡ place_count self.old }
        ensures same_takes { (share : Share) (w : ℕ) → takes_all share w ≡ takes_all share w }
        ensures some_pending { (place : ℕ) → is_set (pending_flags self.old) place ≡ true → result.a ≡ 0 }
        ensures none_pending { ((place : ℕ) → is_set (pending_flags self.old) place ≡ false) → result.a ≡ NONE }
        ensures told { result.b ≡ (if sent then 1 else 0) }
        ensures same_level { this_level self.new ≡ this_level self.old }
    {
        Vote {
            a: if self.is_pending() { 0 } else { u64::MAX },
            b: u64::from(sent),
            c: 0,
            d: 0,
        }
    }

    fn begin(&mut self, _votes: &[Vote])
        ensures begun { AreSame (pending_places self.old) (ready_places self.new) }
        ensures rests { AreSame (pending_places self.old) (pending_places self.new) }
        ensures same_count { place_count self.new ≡ place_count self.old }
        ensures same_takes { (share : Share) (w : ℕ) → takes_all share w ≡ takes_all share w }
        ensures ready { AreSame (pending_places self.old) (ready_places self.new) }
    {
        self.advance();
    }
}
