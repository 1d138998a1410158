//! What the two ends of a ring share, the rule that holds for it, and what an end knows after each step.
ghost use Rattle.pg_lane.specs.Ring.{Ring, first_view, saw_taken, sends, saw_sent, receives, lets_go, shows_rest, writer_view, reader_view, both_views, spent_view};

use crate::Shows;
use atomic_table::{Join, Play, Seat, Split, Table, TableRule};
use std::alloc::Global;
use std::collections::LinkedList;

/// What a seat at a ring knows. No value of it is made.
pub struct Knows<M> {
    /// Whether the seat is that of the end that pushes.
    pub writes: bool,
    /// Whether the seat is that of the end that pops.
    pub reads: bool,
    /// The messages pushed, as far as the seat knows them, oldest first.
    pub sent: LinkedList<M>,
    /// How many more messages the writer knows that there is room for.
    pub room: u64,
    /// The messages popped, as far as the seat knows them, oldest first.
    pub taken: LinkedList<M>,
    /// The message whose slot the reader has.
    pub hand: Option<M>,
    /// How often the seat loaded the other end's word.
    pub looks: u64,
    /// How long the last look showed the other end's list to be.
    pub shown: u64,
}

/// The rule: what was taken, and then what the ring holds, is what was sent.
pub struct InTurn;

impl<M> TableRule<Option<M>, Knows<M>, ()> for InTurn {
    ghost holds = { λ _. Ring };

    ghost first = { λ _. first_view };
}

/// The words and the slots of a ring, which both ends share.
pub type Board<M> = Table<Option<M>, Knows<M>, (), InTurn, Global>;

/// The seat of an end: what it knows of the ring, and the slots that it has.
pub type Place<M> = Seat<Option<M>, Knows<M>>;

// The steps. What an end knows after each one is said in `specs/Ring.antt`.
pub(crate) struct SeesTaken;

impl<M> Play<Option<M>, Knows<M>> for SeesTaken {
    ghost then = { saw_taken };
}

pub(crate) struct Sends;

impl<M> Play<Option<M>, Knows<M>> for Sends {
    ghost then = { sends };
}

pub(crate) struct SeesSent;

impl<M> Play<Option<M>, Knows<M>> for SeesSent {
    ghost then = { saw_sent };
}

pub(crate) struct Receives;

impl<M> Play<Option<M>, Knows<M>> for Receives {
    ghost then = { receives };
}

pub(crate) struct LetsGo;

impl<M> Play<Option<M>, Knows<M>> for LetsGo {
    ghost then = { lets_go };
}

pub(crate) struct SeesRest;

impl<M> Play<Option<M>, Knows<M>> for SeesRest {
    ghost then = { shows_rest };
}

pub(crate) struct TwoEnds;

impl<M> Split<Knows<M>> for TwoEnds {
    ghost left = { writer_view };

    ghost right = { reader_view };
}

impl<M> Join<Knows<M>> for TwoEnds {
    ghost both = { both_views };

    ghost spent = { spent_view };
}

// The list that a seat knows to be sent.
pub(crate) struct SentBy;

impl<M> Shows<Place<M>, LinkedList<M>> for SentBy {
    ghost shown = { λ seat. seat.me.0.sent };
}

// The list that a seat knows to be taken.
pub(crate) struct TakenBy;

impl<M> Shows<Place<M>, LinkedList<M>> for TakenBy {
    ghost shown = { λ seat. seat.me.0.taken };
}
