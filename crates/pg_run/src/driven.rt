//! What can be driven: it has turns, and ends.
ghost use Rattle.std.specs.Prelude.{◌≡◌, Bool};

use crate::runners::Runner;
use pg_group::{Mailbox, Program};

// A machine that is driven turn by turn, until it has ended.
pub trait Driven {
    // From the machine before a turn to the machine after it.
    ghost Turned: { Self → Self → Type 0 };

    // Whether it has ended.
    ghost ended: { Self → Bool };

    // Whether it has ended.
    fn has_ended(&self) -> bool
        ensures { result ≡ ended self.now };
}

impl<P: Program, M: Mailbox<P::Body>> Driven for Runner<P, M> {
    ghost use Rattle.pg_run.specs.Driven.{HadTurn};

    ghost Turned = { λ old new. HadTurn old new };

    ghost ended = { λ r. r.done };

    fn has_ended(&self) -> bool {
        self.done
    }
}
