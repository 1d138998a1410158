//! A lane to another rank, which a port puts bodies into.
ghost use Rattle.std.specs.Prelude.{◌≡◌, true, ◌%◌, ◌^◌, length};
ghost use Rattle.pg_group.specs.Envelopes.{bodies, IsNumbered};
ghost use Rattle.pg_group.specs.Rounds.{ends_with_mark};

use crate::{Body, Envelope};
use pg_lane::OutEnd;
use std::marker::PhantomData;

/// A lane to another rank: its end, the number of the next envelope, and whether this round's mark was sent.
#[derive(Drop)]
pub struct OutLane<B: Copy + Send, O: OutEnd<Envelope<B>>> {
    pub end: O,
    pub number: u64,
    pub marked: bool,
    pub items: PhantomData<B>,
    ghost numbered: { IsNumbered (O.sent end) },
    ghost next: { number ≡ length (O.sent end) % 2 ^ 64 },
    ghost mark: { marked ≡ true → ends_with_mark (bodies (O.sent end)) ≡ true },
}

/// A lane that bodies are put into.
pub trait Posts<B> {
    ghost use Rattle.std.specs.Prelude.{◌≡◌, ℕ, Bool, false, List, [], ◌∷◌, ◌++◌, ◌&&◌, MatchBool};
    ghost use Rattle.std.specs.Bool.{OnFalse};
    ghost use Rattle.pg_group.specs.declared.messages.Body.{Body};
    ghost use Rattle.pg_group.specs.Rounds.{is_mark};
    ghost use Rattle.atomic_table.specs.Seated.{TableId};

    /// The bodies sent, oldest first.
    ghost posted: { Self → List (Body B) };

    /// Whether this round's mark was sent.
    ghost mark_posted: { Self → Bool };

    /// Which lane it is.
    ghost lane: { Self → TableId };

    /// How many bodies it holds at most.
    ghost capacity: { Self → ℕ };

    /// What the lane before and after a call shows of a moment in between at which it was full.
    ghost saw_full: { Self → Self → Type 0 };

    /// What it may have become by calls on it.
    ghost Later: { Self → Self → Type 0 };

    /// Sends a body, and answers whether it was sent. `false` comes only where the lane was full at one moment of this
    /// call; nothing was sent then.
    fn post(&mut self, body: Body<B>) -> bool
        requires { mark_posted self.old ≡ false }
        ensures sends { MatchBool result (posted self.new ≡ posted self.old ++ body ∷ []) (posted self.new ≡ posted self.old) }
        ensures mark { mark_posted self.new ≡ (result && is_mark body) }
        ensures cause { OnFalse result (saw_full self.old self.new) }
        ensures same_lane { lane self.new ≡ lane self.old }
        ensures same_capacity { capacity self.new ≡ capacity self.old }
        ensures later { Later self.old self.new };
}

impl<B: Copy + Send, O: OutEnd<Envelope<B>>> Posts<B> for OutLane<B, O> {
    ghost use Rattle.std.specs.Prelude.{◌≡◌, false, [], ◌∷◌, ◌++◌, ◌&&◌, MatchBool};
    ghost use Rattle.std.specs.Bool.{OnFalse};
    ghost use Rattle.pg_group.specs.Envelopes.{bodies};
    ghost use Rattle.pg_group.specs.Rounds.{is_mark};
    ghost use Rattle.pg_lane.specs.EndLater.{OutLater};

    ghost posted = { λ l. bodies (O.sent l.end) };

    ghost mark_posted = { λ l. l.marked };

    ghost lane = { λ l. O.lane l.end };

    ghost capacity = { λ l. O.capacity l.end };

    ghost saw_full = { λ old new. O.saw_full old.end new.end };

    ghost Later = { λ old new. OutLater ⟦<O as OutEnd<Envelope<B>>>⟧ old.end new.end };

    fn post(&mut self, body: Body<B>) -> bool
        requires { self.old.marked ≡ false }
        ensures sends { MatchBool result (bodies (O.sent self.new.end) ≡ bodies (O.sent self.old.end) ++ body ∷ []) (bodies (O.sent self.new.end) ≡ bodies (O.sent self.old.end)) }
        ensures mark { self.new.marked ≡ (result && is_mark body) }
        ensures cause { OnFalse result (O.saw_full self.old.end self.new.end) }
        ensures same_lane { O.lane self.new.end ≡ O.lane self.old.end }
        ensures same_capacity { O.capacity self.new.end ≡ O.capacity self.old.end }
        ensures later { OutLater ⟦<O as OutEnd<Envelope<B>>>⟧ self.old.end self.new.end }
    {
        let envelope = Envelope {
            number: self.number,
            body,
        };
        match self.end.push(envelope) {
            Ok(()) => {
                self.number = self.number.wrapping_add(1);
                self.marked = matches!(body, Body::Mark(_));
                true
            }
            Err(_) => false,
        }
    }
}
