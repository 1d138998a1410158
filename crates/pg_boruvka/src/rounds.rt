//! A count of phases without a limit, in one byte: only contracts see the number.

ghost use Rattle.std.specs.Prelude.{◌≡◌, ◌+◌};
ghost use Rattle.pg_boruvka.specs.Phasing.{count_of};

use std::snapshot::Snapshot;

/// How many phases have ended. Only contracts see the number, which no machine word could hold for every run.
#[derive(Drop)]
pub(crate) enum Phases {
    None,
    OneMore(Snapshot<Phases>),
}

impl Phases {
    /// One phase more.
    pub(crate) fn count(&mut self)
        ensures { count_of self.new ≡ count_of self.old + 1 }
    {
        let before = Snapshot::of(&*self);
        *self = Phases::OneMore(before);
    }
}
