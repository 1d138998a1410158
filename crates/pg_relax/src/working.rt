//! What one call of `work` does.
ghost use Rattle.std.specs.Prelude.{◌≡◌, ◌≢◌, ◌<◌, ◌≤◌, true, false, Some, None, List, length, IfNone, IfSome};
ghost use Rattle.std.specs.Option.{ForSome};
ghost use Rattle.pg_group.specs.declared.messages.Body.{Body};
ghost use Rattle.pg_group.specs.declared.messages.Body.TheVariants.{Item};
ghost use Rattle.pg_group.specs.Ranked.{IsOther, append_at};
ghost use Rattle.pg_group.specs.Supersteps.{AreUnmarked, OnMore, OnIdle, OnBlocked};
ghost use Rattle.pg_agenda.specs.Shares.{AreNone, AreSame};
ghost use Rattle.pg_best.specs.declared.offers.Offer.{Offer};
ghost use Rattle.pg_relax.specs.Items.{IsItem, IsTakenUp, SendsOnlyNew};
ghost use Rattle.pg_relax.specs.Offered.{AreOffered, Covers};
ghost use Rattle.pg_relax.specs.Passing.{KeepsOn};
ghost use Rattle.pg_relax.specs.States.{Relaxes, label_of, row};

use crate::ahead::{Ahead, Passed};
use crate::frontiers::Frontier;
use crate::offered::Offered;
use crate::passing::next_offer;
use pg_adj::Part;
use pg_agenda::Agenda;
use pg_best::Offer;
use pg_group::{Outbox, Worked};
use pg_label::Label;

// These arcs, if there is one.
fn if_left(part: &Part, ahead: Ahead) -> Option<Ahead>
    requires { ahead.place < length part.now.vertices }
    ensures some { IfSome result (λ h. h ≡ ahead) }
    ensures below { IfSome result (λ h. h.next < length (row part.now h.place)) }
    ensures none { IfNone result (length (row part.now ahead.place) ≤ ahead.next) }
{
    (ahead.next < part.arcs(ahead.place).len()).then_some(ahead)
}

/// Takes up the next place that is ready: its arcs are ahead then. None where no place is ready.
pub(crate) fn take_up<A: Agenda>(part: &Part, frontier: &mut Frontier<A>) -> Option<Option<Ahead>>
    requires { length frontier.old.table.values.items ≡ length part.now.vertices }
    ensures none { IfNone result (AreNone (A.ready frontier.new.agenda)) }
    ensures taken { IfSome result (IsTakenUp part.now (A.ready frontier.old.agenda) (A.pending frontier.old.agenda) (A.pending frontier.new.agenda)) }
    ensures values { IfNone result (frontier.new.table.values.items ≡ frontier.old.table.values.items) }
    ensures pending { IfNone result (AreSame (A.pending frontier.old.agenda) (A.pending frontier.new.agenda)) }
    ensures takes { AreSame (A.takes frontier.old.agenda) (A.takes frontier.new.agenda) }
    ensures kept { IfSome result (λ ahead. (label : _) → KeepsOn label part.now
        (A.takes frontier.old.agenda) frontier.old.table.values.items (A.pending frontier.old.agenda) None
        (A.takes frontier.new.agenda) frontier.new.table.values.items (A.pending frontier.new.agenda) ahead) }
    ensures place { IfSome result (λ ahead. ForSome ahead (λ h. h.place < length part.now.vertices)) }
    ensures next { IfSome result (λ ahead. ForSome ahead (λ h. h.next < length (row part.now h.place))) }
    ensures same_count { length frontier.new.table.values.items ≡ length frontier.old.table.values.items }
{
    let (place, share) = frontier.agenda.pop()?;
    Some(if_left(
        part,
        Ahead {
            place,
            share,
            next: 0,
        },
    ))
}

/// What came of passing arcs.
#[derive(Clone, Copy, Debug, PartialEq, Eq)]
pub(crate) struct Went {
    /// The arcs that are still ahead.
    pub(crate) ahead: Option<Ahead>,
    /// Whether an offer was sent.
    pub(crate) sent: bool,
    pub(crate) worked: Worked,
}

/// Passes the arcs ahead up to the next offer, sends it and notes it. Where the lane is full, the offer's arc is still
/// ahead.
pub(crate) fn go_on<L: Label, A: Agenda, O: Outbox<Offer>>(
    part: &Part,
    label: &L,
    frontier: &mut Frontier<A>,
    offered: &mut Offered,
    ahead: Ahead,
    out: &mut O,
) -> Went
    requires place { ahead.place < length part.now.vertices }
    requires each { length frontier.old.table.values.items ≡ length part.now.vertices }
    requires covers { Covers part.now.ghosts offered.old.first (length offered.old.told.items) }
    requires own { O.own out.old ≡ part.now.rank }
    requires size { O.size out.old ≡ part.now.ranks }
    requires unmarked { AreUnmarked (O.marks_sent out.old) }
    ensures kept { (handled : List (List (Body Offer))) → length (O.sent out.old) ≡ part.now.ranks
        → AreOffered (O.sent out.old) offered.old
        → Relaxes (label_of (L.start label.now) (L.add label.now)) part.now (A.takes frontier.old.agenda) handled (O.sent out.old) frontier.old.table.values.items (A.pending frontier.old.agenda) (Some ahead)
        → Relaxes (label_of (L.start label.now) (L.add label.now)) part.now (A.takes frontier.new.agenda) handled (O.sent out.new) frontier.new.table.values.items (A.pending frontier.new.agenda) result.ahead }
    ensures offered { length (O.sent out.old) ≡ part.now.ranks → AreOffered (O.sent out.old) offered.old
        → AreOffered (O.sent out.new) offered.new }
    ensures sent { result.sent ≡ true → (to : _) × (offer : Offer) × IsOther part.now.rank part.now.ranks to × (O.sent out.new ≡ append_at (O.sent out.old) to (Item offer)) }
    ensures unsent { result.sent ≡ false → O.sent out.new ≡ O.sent out.old }
    ensures only_new { SendsOnlyNew part.now (O.sent out.old) offered.old (O.sent out.new) offered.new }
    ensures more { OnMore result.worked (IsItem part.now (A.ready frontier.old.agenda) (A.pending frontier.old.agenda) (A.pending frontier.new.agenda) (Some ahead) result.ahead) }
    ensures not_idle { OnIdle result.worked ⊥ }
    ensures blocked { OnBlocked result.worked (λ to. IsOther part.now.rank part.now.ranks to × O.saw_full out.old to out.new) }
    ensures blocked_did { OnBlocked result.worked (λ _. (frontier.new ≡ frontier.old) × (offered.new ≡ offered.old) × (result.ahead ≡ Some ahead) × (result.sent ≡ false)) }
    ensures takes { AreSame (A.takes frontier.old.agenda) (A.takes frontier.new.agenda) }
    ensures next_place { ForSome result.ahead (λ h. h.place < length part.now.vertices) }
    ensures next { ForSome result.ahead (λ h. h.next < length (row part.now h.place)) }
    ensures same_count { length frontier.new.table.values.items ≡ length frontier.old.table.values.items }
    ensures same_first { offered.new.first ≡ offered.old.first }
    ensures same_entries { length offered.new.told.items ≡ length offered.old.told.items }
    ensures out_own { O.own out.new ≡ O.own out.old }
    ensures out_size { O.size out.new ≡ O.size out.old }
    ensures out_marks { O.marks_sent out.new ≡ O.marks_sent out.old }
    ensures out_rest { O.SameRest out.old out.new }
    ensures out_later { O.Later out.old out.new }
{
    match next_offer(part, label, frontier, offered, ahead) {
        Passed::All => Went {
            ahead: None,
            sent: false,
            worked: Worked::More,
        },
        Passed::UpTo { next, to, offer } => match out.send(to, offer) {
            Ok(()) => {
                offered.note(to, &offer);
                Went {
                    ahead: if_left(
                        part,
                        Ahead {
                            next: next + 1,
                            ..ahead
                        },
                    ),
                    sent: true,
                    worked: Worked::More,
                }
            }
            Err(_) => Went {
                ahead: Some(Ahead { next, ..ahead }),
                sent: false,
                worked: if next == ahead.next {
                    Worked::Blocked { to }
                } else {
                    Worked::More
                },
            },
        },
    }
}
