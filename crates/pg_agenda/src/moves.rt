//! The moves of places to lists, which contracts see as a history.
ghost use Rattle.std.specs.Prelude.{◌≡◌, ◌≢◌, ◌+◌, ℕ};
ghost use Rattle.pg_agenda.specs.Moves.{home, stamp, total};

use std::snapshot::Snapshot;

/// Which place was moved to which list, one move after the other. Only contracts see those before the last.
#[derive(Drop)]
pub(crate) enum Moves {
    None,
    OneMore(u32, u32, Snapshot<Moves>),
}

impl Moves {
    /// One move more.
    pub(crate) fn add(&mut self, place: u32, list: u32)
        ensures here { home self.new place ≡ list }
        ensures newest { stamp self.new place ≡ total self.old + 1 }
        ensures others { (other : ℕ) → other ≢ place → home self.new other ≡ home self.old other }
        ensures older { (other : ℕ) → other ≢ place → stamp self.new other ≡ stamp self.old other }
        ensures counted { total self.new ≡ total self.old + 1 }
    {
        let before = Snapshot::of(&*self);
        *self = Moves::OneMore(place, list, before);
    }
}
