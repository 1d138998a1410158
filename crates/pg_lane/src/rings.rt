//! Lanes over a ring of slots: one end counts the messages that it sent, the other those that it took.
ghost use Rattle.std.specs.Prelude.{◌≡◌, ◌+◌, ◌%◌, ◌^◌, ◌<◌, ◌≤◌, true, false, [], ◌∷◌, ◌++◌, length, IfOk, IfSome, OnOk};
ghost use Rattle.std.specs.Arc.{arc_value};
ghost use Rattle.pg_lane.specs.Ring.{free_slot, full_slot, held, one, spare};

use crate::rules::{
    Board, LetsGo, Place, Receives, SeesRest, SeesSent, SeesTaken, Sends, SentBy, TakenBy, TwoEnds,
};
use crate::{Full, InEnd, LaneKind, OutEnd, Settled, Shown};
use pg_base::OutOfMemory;
use std::alloc::{AllocError, Global};
use std::sync::Arc;

// Indexes of words. They lie 128 bytes apart, so that the two ends write to different cache lines.
const HEAD: usize = 0;

const TAIL: usize = 16;

const WORDS: usize = 17;

/// Lanes over a ring of slots, one for each message that a lane holds at most. The ends never wait for one another.
/// Only `make` allocates.
pub struct RingLanes;

/// The end of a ring that pushes.
#[derive(Drop)]
pub struct RingOut<M> {
    board: Arc<Board<M>, Global>,
    seat: Place<M>,
    capacity: usize,
    // The slot of the next message. This end has it exactly where `room` is not 0.
    place: usize,
    // How many more messages it knows that there is room for.
    room: u64,
    pushed: u64,
    ghost of_board: { seat.table_id ≡ (arc_value board).shared.table_id },
    ghost words: { (arc_value board).shared.table_id.words ≡ 17 },
    ghost slots: { (arc_value board).shared.table_id.slots ≡ capacity },
    ghost some_slot: { 1 ≤ capacity },
    ghost few_slots: { capacity ≤ 1024 },
    ghost writes: { seat.me.0.writes ≡ true },
    ghost reads: { seat.me.0.reads ≡ false },
    ghost known_room: { seat.me.0.room ≡ room },
    ghost next_place: { place ≡ length seat.me.0.sent % capacity },
    ghost counted: { pushed ≡ length seat.me.0.sent % 2 ^ 64 },
    ghost holds: { seat.me.1 ≡ free_slot room place (spare seat.me.1) },
}

/// The end of a ring that pops.
#[derive(Drop)]
pub struct RingIn<M> {
    board: Arc<Board<M>, Global>,
    seat: Place<M>,
    capacity: usize,
    // The slot of the next message. This end has it exactly where `ready` is not 0.
    place: usize,
    // How many messages it knows of that it can take.
    ready: u64,
    popped: u64,
    ghost of_board: { seat.table_id ≡ (arc_value board).shared.table_id },
    ghost words: { (arc_value board).shared.table_id.words ≡ 17 },
    ghost slots: { (arc_value board).shared.table_id.slots ≡ capacity },
    ghost some_slot: { 1 ≤ capacity },
    ghost few_slots: { capacity ≤ 1024 },
    ghost writes: { seat.me.0.writes ≡ false },
    ghost reads: { seat.me.0.reads ≡ true },
    ghost known_ready: { seat.me.0.shown ≡ length seat.me.0.taken + ready },
    ghost in_hand: { held seat.me.0.hand ≡ one ready },
    ghost next_place: { place ≡ length seat.me.0.taken % capacity },
    ghost counted: { popped ≡ length seat.me.0.taken % 2 ^ 64 },
    ghost holds: { seat.me.1 ≡ full_slot seat.me.0.hand place },
}

impl<M: Copy> RingOut<M> {
    // Looks how many messages were taken.
    fn look(&mut self)
        requires { self.old.room ≡ 0 }
        ensures lane { self.new.seat.table_id ≡ self.old.seat.table_id }
        ensures capacity { self.new.capacity ≡ self.old.capacity }
        ensures sent { self.new.seat.me.0.sent ≡ self.old.seat.me.0.sent }
        ensures looks { self.new.seat.me.0.looks ≡ self.old.seat.me.0.looks + 1 }
        ensures shown { length self.new.seat.me.0.sent + self.new.room ≡ self.new.seat.me.0.shown + self.new.capacity }
    {
        let taken = self.board.shared.load::<SeesTaken>(&mut self.seat, HEAD);
        self.room = self.capacity as u64 - self.pushed.wrapping_sub(taken);
    }

    // Fills the slot of the next message and sends it.
    fn send(&mut self, item: M)
        requires { 1 ≤ self.old.room }
        ensures lane { self.new.seat.table_id ≡ self.old.seat.table_id }
        ensures capacity { self.new.capacity ≡ self.old.capacity }
        ensures sent { self.new.seat.me.0.sent ≡ self.old.seat.me.0.sent ++ item ∷ [] }
        ensures looks { self.new.seat.me.0.looks ≡ self.old.seat.me.0.looks }
        ensures shown { self.new.seat.me.0.shown ≡ self.old.seat.me.0.shown }
    {
        let board = &self.board.shared;
        let _before = board.exchange(&mut self.seat, self.place, Some(item));
        board.fetch_add::<Sends>(&mut self.seat, TAIL, 1);
        self.room -= 1;
        self.pushed = self.pushed.wrapping_add(1);
        self.place = next_place(self.place, self.capacity);
    }
}

impl<M: Copy> RingIn<M> {
    // Looks how many messages were sent.
    fn look(&mut self)
        requires { self.old.ready ≡ 0 }
        ensures lane { self.new.seat.table_id ≡ self.old.seat.table_id }
        ensures capacity { self.new.capacity ≡ self.old.capacity }
        ensures taken { self.new.seat.me.0.taken ≡ self.old.seat.me.0.taken }
        ensures looks { self.new.seat.me.0.looks ≡ self.old.seat.me.0.looks + 1 }
    {
        let sent = self.board.shared.load::<SeesSent>(&mut self.seat, TAIL);
        self.ready = sent.wrapping_sub(self.popped);
    }

    // Takes the message in the slot that this end has, and leaves the slot to be written again.
    fn receive(&mut self) -> M
        requires { 1 ≤ self.old.ready }
        ensures lane { self.new.seat.table_id ≡ self.old.seat.table_id }
        ensures capacity { self.new.capacity ≡ self.old.capacity }
        ensures taken { self.new.seat.me.0.taken ≡ self.old.seat.me.0.taken ++ result ∷ [] }
        ensures looks { self.new.seat.me.0.looks ≡ self.old.seat.me.0.looks }
        ensures shown { self.new.seat.me.0.shown ≡ self.old.seat.me.0.shown }
    {
        let board = &self.board.shared;
        let item = *self.seat.slot_mut(board, self.place);
        board.fetch_add::<Receives>(&mut self.seat, HEAD, 1);
        self.ready -= 1;
        self.popped = self.popped.wrapping_add(1);
        self.place = next_place(self.place, self.capacity);
        item.unwrap()
    }
}

// The slot after this one.
fn next_place(place: usize, capacity: usize) -> usize
    requires { place < capacity }
    ensures { result ≡ (place + 1) % capacity }
{
    if place + 1 == capacity { 0 } else { place + 1 }
}

impl<M: Copy + Send> OutEnd<M> for RingOut<M> {
    ghost use Rattle.std.specs.Prelude.{◌≡◌, ◌+◌, ◌<◌, length};

    ghost sent = { λ e. e.seat.me.0.sent };

    ghost lane = { λ e. e.seat.table_id };

    ghost capacity = { λ e. e.capacity };

    ghost looks = { λ e. e.seat.me.0.looks };

    ghost saw_full = { λ old new. (old.seat.me.0.looks < new.seat.me.0.looks) × (new.seat.me.0.shown + new.capacity ≡ length new.seat.me.0.sent) };

    fn push(&mut self, item: M) -> Result<(), Full<M>> {
        if self.room == 0 {
            self.look();
            if self.room == 0 {
                return Err(Full(item));
            }
        }
        self.send(item);
        Ok(())
    }
}

impl<M: Copy + Send> InEnd<M> for RingIn<M> {
    ghost use Rattle.std.specs.Prelude.{◌≡◌, ◌<◌, length};

    ghost taken = { λ e. e.seat.me.0.taken };

    ghost lane = { λ e. e.seat.table_id };

    ghost capacity = { λ e. e.capacity };

    ghost looks = { λ e. e.seat.me.0.looks };

    ghost saw_empty = { λ old new. (old.seat.me.0.looks < new.seat.me.0.looks) × (new.seat.me.0.shown ≡ length new.seat.me.0.taken) };

    fn pop(&mut self) -> Option<M> {
        if self.ready == 0 {
            self.look();
            if self.ready == 0 {
                return None;
            }
        }
        Some(self.receive())
    }
}

impl<M: Copy + Send> LaneKind<M> for RingLanes {
    type Token = ();

    type Out = RingOut<M>;

    type In = RingIn<M>;

    fn make(
        _token: (),
        alloc: Global,
        capacity: u32,
    ) -> Result<(RingOut<M>, RingIn<M>), OutOfMemory> {
        match ends(alloc, capacity as usize) {
            Ok(both) => Ok(both),
            Err(_) => Err(OutOfMemory),
        }
    }

    fn settle(out: RingOut<M>, inn: RingIn<M>) -> Settled<M> {
        let RingOut {
            board,
            mut seat,
            capacity,
            pushed,
            ..
        } = out;
        let RingIn {
            seat: mut other,
            popped,
            ..
        } = inn;
        let ring = &board.shared;
        ring.load::<LetsGo>(&mut other, HEAD);
        ring.join_seat::<TwoEnds>(&mut seat, other);
        ring.load::<SeesRest>(&mut seat, HEAD);
        let sent = Shown::of::<Place<M>, SentBy>(&seat);
        let taken = Shown::of::<Place<M>, TakenBy>(&seat);
        Settled::new(sent, taken, capacity, pushed, pushed.wrapping_sub(popped))
    }
}

type Ends<M> = (RingOut<M>, RingIn<M>);

// The two ends of a new ring with this number of slots.
fn ends<M: Copy>(alloc: Global, capacity: usize) -> Result<Ends<M>, AllocError>
    requires some_slot { 1 ≤ capacity }
    requires few_slots { capacity ≤ 1024 }
    ensures lane { IfOk result (λ e. e.0.seat.table_id ≡ e.1.seat.table_id) }
    ensures out_capacity { IfOk result (λ e. e.0.capacity ≡ capacity) }
    ensures in_capacity { IfOk result (λ e. e.1.capacity ≡ capacity) }
    ensures sent { IfOk result (λ e. e.0.seat.me.0.sent ≡ []) }
    ensures taken { IfOk result (λ e. e.1.seat.me.0.taken ≡ []) }
{
    let words = [0u64; WORDS];
    let (table, mut writer) = Board::vacant(alloc, &words, capacity, &())?;
    let reader = table.shared.split_seat::<TwoEnds>(&mut writer);
    let board = Arc::new(alloc, table)?;
    let theirs = Arc::try_clone(&board)?;
    let out = RingOut {
        board,
        seat: writer,
        capacity,
        place: 0,
        room: 0,
        pushed: 0,
    };
    let inn = RingIn {
        board: theirs,
        seat: reader,
        capacity,
        place: 0,
        ready: 0,
        popped: 0,
    };
    Ok((out, inn))
}
