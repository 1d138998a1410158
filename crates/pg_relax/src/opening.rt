//! New relaxations, and their values.
ghost use Rattle.std.specs.Prelude.{◌≡◌, ◌<◌, ℕ, Some, None, length, IfOk, IfSome};
ghost use Rattle.pg_label.specs.Values.{IsWithin, start_value};
ghost use Rattle.pg_agenda.specs.declared.shares.Share.{Share};
ghost use Rattle.pg_agenda.specs.Shares.{AreNone, AreSame};
ghost use Rattle.pg_relax.specs.Frontiers.{IsLowered};
ghost use Rattle.pg_relax.specs.Kept.{IsOpenBelow, IsOpening};
ghost use Rattle.pg_relax.specs.Shown.{IsNewRelax, label_in, part_in, state_of};
ghost use Rattle.pg_relax.specs.States.{label_of};
ghost use Rattle.pg_relax.specs.Tables.{value_at};

use crate::Relax;
use crate::frontiers::Frontier;
use crate::offered::Offered;
use crate::rounds::Rounds;
use crate::tables::Table;
use pg_adj::Part;
use pg_agenda::Agenda;
use pg_base::{OutOfMemory, Vertex};
use pg_label::{Label, Value};
use std::alloc::Global;

impl<L: Label + Drop, A: Agenda + Drop> Relax<L, A> {
    /// The relaxation of one part, with a new agenda of as many places as it has own vertices. Each own vertex that the
    /// label starts has the value of its start and is pending. Takes 16 bytes for each own vertex, and 24 for each
    /// vertex from the least ghost to the greatest. `OutOfMemory` comes only where an allocation is refused.
    pub fn new(alloc: Global, part: Part, label: L, agenda: A) -> Result<Relax<L, A>, OutOfMemory>
        requires none { AreNone (A.pending agenda) }
        requires count { A.count agenda ≡ length part.vertices }
        ensures new { IfOk result (λ r. IsNewRelax r) }
        ensures part { IfOk result (λ r. part_in r ≡ part) }
        ensures label { IfOk result (λ r. label_in r ≡ label) }
        ensures takes { IfOk result (λ r. (share : Share) (w : ℕ) → (state_of r).takes share w ≡ A.takes agenda share w) }
    {
        let Ok(table) = Table::new(alloc, part.count() as usize) else {
            return Err(OutOfMemory);
        };
        let Ok(offered) = Offered::new(alloc, &part) else {
            return Err(OutOfMemory);
        };
        let mut frontier = Frontier { table, agenda };
        open(&part, &label, &mut frontier);
        frontier.agenda.begin(&[]);
        Ok(Relax {
            part,
            label,
            frontier,
            offered,
            ahead: None,
            sends: false,
            idle: false,
            cast: None,
            ended: false,
            rounds: Rounds::None,
        })
    }
}

// Gives each own vertex that the label starts the value of its start.
fn open<L: Label, A: Agenda>(part: &Part, label: &L, frontier: &mut Frontier<A>)
    requires each { length frontier.old.table.values.items ≡ length part.now.vertices }
    requires none { IsOpenBelow 0 (label_of (L.start label.now) (L.add label.now)) part.now frontier.old.table.values.items (A.pending frontier.old.agenda) }
    ensures opening { IsOpening (label_of (L.start label.now) (L.add label.now)) part.now frontier.new.table.values.items (A.pending frontier.new.agenda) }
    ensures same_count { length frontier.new.table.values.items ≡ length frontier.old.table.values.items }
    ensures same_takes { AreSame (A.takes frontier.old.agenda) (A.takes frontier.new.agenda) }
{
    let count = part.count();
    for place in 0..count {
        open_place(label, frontier, place, part.vertex(place));
    }
}

// Gives the place of the vertex the value of its start, if the vertex starts.
fn open_place<L: Label, A: Agenda>(label: &L, frontier: &mut Frontier<A>, place: u32, v: Vertex)
    requires place { place < length frontier.old.table.values.items }
    ensures started { (class : ℕ) → L.start label.now v.0 ≡ Some class
        → IsLowered place (start_value class) frontier.old.table.values.items (A.pending frontier.old.agenda) frontier.new.table.values.items (A.pending frontier.new.agenda) }
    ensures stays { L.start label.now v.0 ≡ None → frontier.new ≡ frontier.old }
    ensures same_count { length frontier.new.table.values.items ≡ length frontier.old.table.values.items }
    ensures same_takes { AreSame (A.takes frontier.old.agenda) (A.takes frontier.new.agenda) }
{
    if let Some(class) = label.start(v) {
        let start = Value {
            class,
            hops: 0,
            amount: 0,
        };
        frontier.lower(place, start);
    }
}

impl<L: Label, A: Agenda> Relax<L, A> {
    /// The value of the own vertex at the place `i`, counted from 0; `None` where it has none. After a whole run it is
    /// the least value of a walk that leads to the vertex ([`crate::laws::whole_runs`]).
    pub fn value(&self, i: u32) -> Option<Value>
        requires { i < length (part_in self.now).vertices }
        ensures value { result ≡ value_at (state_of self.now).values i }
        ensures within { IfSome result (λ x. IsWithin x) }
    {
        self.frontier.table.value(i)
    }
}
