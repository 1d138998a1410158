//! Values by place, and the places that are pending since their values fell.
ghost use Rattle.std.specs.Prelude.{◌≡◌, ◌<◌, ◌≤◌, true, false, length};
ghost use Rattle.pg_agenda.specs.Shares.{AreSame};
ghost use Rattle.pg_label.specs.Values.{IsWithin};
ghost use Rattle.pg_relax.specs.Frontiers.{IsLowered};

use crate::tables::Table;
use pg_agenda::Agenda;
use pg_label::Value;

/// The values of a rank's vertices and the agenda of those that are to be relaxed.
#[derive(Drop)]
pub(crate) struct Frontier<A: Agenda> {
    pub(crate) table: Table,
    pub(crate) agenda: A,
    ghost same_count: { A.count agenda ≡ length table.values.items },
}

impl<A: Agenda> Frontier<A> {
    /// Gives the place this value, if what it has isn't as low; the place is pending then.
    pub(crate) fn lower(&mut self, place: u32, value: Value)
        requires place { place < length self.old.table.values.items }
        requires value { IsWithin value }
        ensures lowered { IsLowered place value self.old.table.values.items (A.pending self.old.agenda) self.new.table.values.items (A.pending self.new.agenda) }
        ensures same_count { length self.new.table.values.items ≡ length self.old.table.values.items }
        ensures same_takes { AreSame (A.takes self.old.agenda) (A.takes self.new.agenda) }
    {
        if self.table.lower(place, value) {
            self.agenda.mark(place, value.amount);
        }
    }
}
