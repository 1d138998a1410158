//! Passing the arcs of a place.
ghost use Rattle.std.specs.Prelude.{◌≡◌, ◌<◌, ◌≤◌, Some, None, length, IfNone, IfSome};
ghost use Rattle.pg_label.specs.Values.{IsWithin};
ghost use Rattle.pg_agenda.specs.Shares.{AreSame};
ghost use Rattle.pg_relax.specs.Offered.{IsKnown};
ghost use Rattle.pg_relax.specs.Passing.{Extends, ExtendsNone, IsPassed, IsOfferOf, IsUpTo, KeepsOver, OnAll, OnUpTo, from_arc};
ghost use Rattle.pg_relax.specs.States.{label_of};

use crate::ahead::{Ahead, Passed};
use crate::frontiers::Frontier;
use crate::offered::Offered;
use pg_adj::{Arc, Part};
use pg_agenda::Agenda;
use pg_base::RankNo;
use pg_best::Offer;
use pg_label::{Label, Value, extend};

// The value that an arc of this weight gives its end, if it gives it one.
fn end_value<L: Label, A: Agenda>(
    label: &L,
    frontier: &Frontier<A>,
    place: u32,
    w: u32,
) -> Option<Value>
    requires { place < length frontier.now.table.values.items }
    ensures value { IfSome result (Extends (L.add label.now) frontier.now.table.values.items place w) }
    ensures none { IfNone result (ExtendsNone (L.add label.now) frontier.now.table.values.items place w) }
{
    let value = frontier.table.value(place)?;
    extend(value, label.add(w))
}

// Passes an arc of the place: relaxes it where it leads to an own vertex. Where it leads to another rank's, the
// answer is what has to be offered there: nothing, where no better value than before.
fn pass<L: Label, A: Agenda>(
    part: &Part,
    label: &L,
    frontier: &mut Frontier<A>,
    offered: &Offered,
    ahead: Ahead,
    arc: &Arc,
) -> Option<Offer>
    requires place { ahead.place < length frontier.old.table.values.items }
    requires target { arc.now.home.0 ≡ part.now.rank → arc.now.place < length frontier.old.table.values.items }
    ensures passed { IfNone result (IsPassed (L.add label.now) part.now offered.now (A.takes frontier.old.agenda) ahead.place ahead.share arc.now
        frontier.old.table.values.items (A.pending frontier.old.agenda) frontier.new.table.values.items (A.pending frontier.new.agenda)) }
    ensures offer { IfSome result (IsOfferOf (L.add label.now) part.now.rank ahead.place frontier.old.table.values.items arc.now) }
    ensures unknown { IfSome result (λ offer. IsKnown offered.now arc.now.home.0 offer → ⊥) }
    ensures stays { IfSome result (λ _. frontier.new ≡ frontier.old) }
    ensures same_count { length frontier.new.table.values.items ≡ length frontier.old.table.values.items }
    ensures same_takes { AreSame (A.takes frontier.old.agenda) (A.takes frontier.new.agenda) }
{
    if !frontier.agenda.takes(ahead.share, arc.w) {
        return None;
    }
    let value = end_value(label, frontier, ahead.place, arc.w)?;
    if arc.home == part.rank() {
        frontier.lower(arc.place, value);
        return None;
    }
    let offer = Offer {
        to: arc.to,
        place: arc.place,
        value,
    };
    if offered.has(arc.home, &offer) {
        return None;
    }
    Some(offer)
}

/// Passes the arcs ahead up to the next one whose end's value has to be offered to another rank.
pub(crate) fn next_offer<L: Label, A: Agenda>(
    part: &Part,
    label: &L,
    frontier: &mut Frontier<A>,
    offered: &Offered,
    ahead: Ahead,
) -> Passed
    requires place { ahead.place < length part.now.vertices }
    requires each { length frontier.old.table.values.items ≡ length part.now.vertices }
    ensures all { OnAll result (KeepsOver offered.now (label_of (L.start label.now) (L.add label.now)) part.now
        (A.takes frontier.old.agenda) frontier.old.table.values.items (A.pending frontier.old.agenda) (Some ahead)
        (A.takes frontier.new.agenda) frontier.new.table.values.items (A.pending frontier.new.agenda) None) }
    ensures kept { OnUpTo result (λ next to offer. KeepsOver offered.now (label_of (L.start label.now) (L.add label.now)) part.now
        (A.takes frontier.old.agenda) frontier.old.table.values.items (A.pending frontier.old.agenda) (Some ahead)
        (A.takes frontier.new.agenda) frontier.new.table.values.items (A.pending frontier.new.agenda) (Some (from_arc ahead next))) }
    ensures up_to { OnUpTo result (IsUpTo (L.add label.now) part.now ahead frontier.new.table.values.items) }
    ensures unknown { OnUpTo result (λ next to offer. IsKnown offered.now to.0 offer → ⊥) }
    ensures stays { OnUpTo result (λ next to offer. next ≡ ahead.next → frontier.new ≡ frontier.old) }
    ensures same_count { length frontier.new.table.values.items ≡ length frontier.old.table.values.items }
    ensures same_takes { AreSame (A.takes frontier.old.agenda) (A.takes frontier.new.agenda) }
{
    let arcs = part.arcs(ahead.place);
    let mut next = ahead.next;
    while next < arcs.len() {
        let arc = &arcs[next];
        if let Some(offer) = pass(part, label, frontier, offered, Ahead { next, ..ahead }, arc) {
            return Passed::UpTo {
                next,
                to: arc.home,
                offer,
            };
        }
        next += 1;
    }
    Passed::All
}
