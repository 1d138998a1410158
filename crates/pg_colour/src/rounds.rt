//! A count of rounds without a limit, in one byte: only contracts see the number.
ghost use Rattle.std.specs.Prelude.{◌≡◌, ◌+◌};
ghost use Rattle.pg_colour.specs.Rounds.{count_of};

use std::snapshot::Snapshot;

/// How many rounds have ended. Only contracts see the number, which no machine word could hold for every run.
#[derive(Drop)]
pub(crate) enum Rounds {
    None,
    OneMore(Snapshot<Rounds>),
}

impl Rounds {
    /// One round more.
    pub(crate) fn count(&mut self)
        ensures { count_of self.new ≡ count_of self.old + 1 }
    {
        let before = Snapshot::of(&*self);
        *self = Rounds::OneMore(before);
    }
}
