//! A lane from another rank, which a port takes bodies from.
ghost use Rattle.std.specs.Prelude.{◌≡◌, true};
ghost use Rattle.pg_group.specs.Envelopes.{bodies};
ghost use Rattle.pg_group.specs.Rounds.{ends_with_mark};

use crate::{Body, Envelope, Polled};
use pg_lane::InEnd;
use std::marker::PhantomData;

/// A lane from another rank: its end, and whether this round's mark was taken.
#[derive(Drop)]
pub struct InLane<B: Copy + Send, I: InEnd<Envelope<B>>> {
    pub end: I,
    pub closed: bool,
    pub items: PhantomData<B>,
    ghost mark: { closed ≡ true → ends_with_mark (bodies (I.taken end)) ≡ true },
}

/// A lane that bodies are taken from.
pub trait Takes<B> {
    ghost use Rattle.std.specs.Prelude.{◌≡◌, ℕ, Bool, true, false, List, [], ◌∷◌, ◌++◌};
    ghost use Rattle.pg_group.specs.declared.messages.Body.{Body};
    ghost use Rattle.pg_group.specs.declared.messages.Body.TheVariants.{Item, Mark};
    ghost use Rattle.pg_group.specs.Polls.{OnItem, OnMark, OnEmpty, OnClosed, is_closed};
    ghost use Rattle.atomic_table.specs.Seated.{TableId};

    /// The bodies taken, oldest first.
    ghost got: { Self → List (Body B) };

    /// Whether this round's mark was taken.
    ghost mark_got: { Self → Bool };

    /// Which lane it is.
    ghost lane: { Self → TableId };

    /// What the lane before and after a call shows of a moment in between at which it was empty.
    ghost saw_empty: { Self → Self → Type 0 };

    /// What it may have become by calls on it.
    ghost Later: { Self → Self → Type 0 };

    /// Takes the next body. `Closed` comes exactly where this round's mark was taken before, and `Empty` only where the
    /// lane was empty at one moment of this call; nothing is taken then.
    fn take(&mut self) -> Polled<B>
        ensures item { OnItem result (λ x. (got self.new ≡ got self.old ++ Item x ∷ []) × (mark_got self.new ≡ mark_got self.old)) }
        ensures mark { OnMark result (λ v. (got self.new ≡ got self.old ++ Mark v ∷ []) × (mark_got self.new ≡ true)) }
        ensures empty { OnEmpty result ((got self.new ≡ got self.old) × (mark_got self.new ≡ mark_got self.old)) }
        ensures cause { OnEmpty result (saw_empty self.old self.new) }
        ensures closed { is_closed result ≡ mark_got self.old }
        ensures stays { OnClosed result ((got self.new ≡ got self.old) × (mark_got self.new ≡ mark_got self.old)) }
        ensures same_lane { lane self.new ≡ lane self.old }
        ensures later { Later self.old self.new };
}

impl<B: Copy + Send, I: InEnd<Envelope<B>>> Takes<B> for InLane<B, I> {
    ghost use Rattle.pg_group.specs.Envelopes.{bodies};
    ghost use Rattle.pg_lane.specs.EndLater.{InLater};

    ghost got = { λ l. bodies (I.taken l.end) };

    ghost mark_got = { λ l. l.closed };

    ghost lane = { λ l. I.lane l.end };

    ghost saw_empty = { λ old new. I.saw_empty old.end new.end };

    ghost Later = { λ old new. InLater ⟦<I as InEnd<Envelope<B>>>⟧ old.end new.end };

    fn take(&mut self) -> Polled<B> {
        if self.closed {
            return Polled::Closed;
        }
        match self.end.pop() {
            None => Polled::Empty,
            Some(Envelope { body, .. }) => match body {
                Body::Item(item) => Polled::Item(item),
                Body::Mark(vote) => {
                    self.closed = true;
                    Polled::Mark(vote)
                }
            },
        }
    }
}
