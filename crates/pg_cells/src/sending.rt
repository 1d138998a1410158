//! The sending of a property map: one body a call.

ghost use Rattle.std.specs.Prelude.{◌≡◌, ◌⊎◌, ◌↔◌, true, false, ℕ, All, None, IfSome, length};
ghost use Rattle.pg_adj.specs.Portions.{IsForeign};
ghost use Rattle.pg_cells.specs.States.{NothingLeft};
ghost use Rattle.pg_cells.specs.Steps.{CellsStep, Sends};
ghost use Rattle.pg_cells.specs.Steps.Event.{sent};
ghost use Rattle.pg_cells.specs.Shown.{SamePart, resolver_of, state_of};
ghost use Rattle.pg_cells.specs.NextSends.{IsNext, after_send};
ghost use Rattle.pg_cells.specs.declared.bodies.CellBody.{CellBody};
ghost use Rattle.pg_cells.specs.declared.outgoing.NextSend.TheVariants.{PutOf, RefreshOf};
ghost use Rattle.pg_cells.specs.declared.phases.Phase.TheVariants.{Closing, Refreshing};
ghost use Rattle.pg_group.specs.declared.messages.Body.TheVariants.{Item};
ghost use Rattle.pg_group.specs.Ranked.{IsOther, append_at};
ghost use Rattle.pg_group.specs.Supersteps.{OnMore, OnIdle, OnBlocked, AreUnmarked};

use crate::outgoing::{NextSend, Outgoing};
use crate::{CellBody, Cells, Phase, Resolver};
use pg_group::{Outbox, Worked};

impl<R: Resolver> Cells<R> {
    /// Sends one body, if one is left to be sent in this phase: a put that is owed; in phase Closing the value of a
    /// noted ghost; in phase Refreshing the value of an own cell to one of its holders. `More`: one was sent, to
    /// another rank. `Idle`: none is left. `Blocked`: the lane to that rank was full. With the last two the map stays
    /// as it was.
    pub fn work<O: Outbox<CellBody>>(&mut self, out: &mut O) -> Worked
        requires own { O.own out.old ≡ (state_of self.old).part.rank }
        requires size { O.size out.old ≡ (state_of self.old).part.ranks }
        requires unmarked { AreUnmarked (O.marks_sent out.old) }
        ensures more { OnMore result ((to : ℕ) × (body : CellBody) × IsOther (O.own out.old) (O.size out.old) to × (O.sent out.new ≡ append_at (O.sent out.old) to (Item body))
            × CellsStep (R.join (resolver_of self.old)) (R.start (resolver_of self.old)) (state_of self.old) (sent to body) (state_of self.new)) }
        ensures idle { OnIdle result (NothingLeft (state_of self.new)) }
        ensures idle_stays { OnIdle result (self.new ≡ self.old) }
        ensures idle_sends { OnIdle result (out.new ≡ out.old) }
        ensures blocked { OnBlocked result (λ to. IsOther (O.own out.old) (O.size out.old) to × O.saw_full out.old to out.new) }
        ensures blocked_stays { OnBlocked result (λ _. self.new ≡ self.old) }
        ensures blocked_sends { OnBlocked result (λ _. O.sent out.new ≡ O.sent out.old) }
        ensures resolver { resolver_of self.new ≡ resolver_of self.old }
        ensures part { SamePart self.old self.new }
        ensures phase { (state_of self.new).phase ≡ (state_of self.old).phase }
        ensures out_own { O.own out.new ≡ O.own out.old }
        ensures out_size { O.size out.new ≡ O.size out.old }
        ensures out_marks { O.marks_sent out.new ≡ O.marks_sent out.old }
        ensures out_rest { O.SameRest out.old out.new }
        ensures out_later { O.Later out.old out.new }
    {
        match self.next_send() {
            None => Worked::Idle,
            Some(next_send) => {
                let outgoing = self.outgoing(next_send);
                match out.send(outgoing.to, outgoing.body) {
                    Ok(()) => {
                        self.done(next_send);
                        Worked::More
                    }
                    Err(_) => Worked::Blocked { to: outgoing.to },
                }
            }
        }
    }

    // What is sent next, if anything is left to be sent in this phase.
    fn next_send(&self) -> Option<NextSend>
        ensures next { IfSome result (IsNext self.now) }
        ensures none { result ≡ None → NothingLeft (state_of self.now) }
    {
        match self.next_put() {
            Some(next_send) => Some(next_send),
            None => self.next_refresh(),
        }
    }

    // The next slot with a pending put, if these are sent in this phase.
    fn next_put(&self) -> Option<NextSend>
        ensures next { IfSome result (IsNext self.now) }
        ensures owed { result ≡ None → All (λ owed. owed ≡ None) (state_of self.now).owed }
        ensures noted { result ≡ None → self.now.phase ≡ Closing → All (λ noted. noted ≡ false) (state_of self.now).noted }
    {
        if !self.sends_puts() {
            return None;
        }
        match self.pending_puts.next() {
            Some(slot) => Some(NextSend::PutOf { slot }),
            None => None,
        }
    }

    // Whether pending puts are sent in this phase: those that are owed in every phase, noted ghosts in Closing.
    fn sends_puts(&self) -> bool
        ensures { (result ≡ true) ↔ ((self.now.flags.forward ≡ true) ⊎ (self.now.phase ≡ Closing)) }
    {
        self.flags.forward || self.phase == Phase::Closing
    }

    // The next pending refresh, if refreshes are sent in this phase.
    fn next_refresh(&self) -> Option<NextSend>
        ensures next { IfSome result (IsNext self.now) }
        ensures unsent { result ≡ None → self.now.phase ≡ Refreshing → self.now.refreshes.next ≡ length self.now.refreshes.entries.items }
    {
        if self.phase != Phase::Refreshing {
            return None;
        }
        match self.refreshes.next() {
            Some(entry) => Some(NextSend::RefreshOf { entry }),
            None => None,
        }
    }

    // What is sent next, and to whom.
    fn outgoing(&self, next_send: NextSend) -> Outgoing
        requires { IsNext self.now next_send }
        ensures foreign { IsForeign self.now.part.value result.to.0 }
        ensures sends { Sends (state_of self.now) result.to.0 result.body (after_send next_send (state_of self.now)) }
    {
        match next_send {
            NextSend::PutOf { slot } => self.put_outgoing(slot),
            NextSend::RefreshOf { entry } => self.refresh_outgoing(entry),
        }
    }

    // The put of the slot: the one that is owed, else the value of the ghost.
    fn put_outgoing(&self, slot: u32) -> Outgoing
        requires { IsNext self.now (PutOf slot) }
        ensures foreign { IsForeign self.now.part.value result.to.0 }
        ensures sends { Sends (state_of self.now) result.to.0 result.body (after_send (PutOf slot) (state_of self.now)) }
    {
        let at = slot as usize;
        let held = self.slots.held[at];
        let value = self
            .pending_puts
            .owed_for(slot)
            .or(self.ghosts[at])
            .unwrap_or(0);
        Outgoing {
            to: held.home,
            body: CellBody::Put {
                place: held.place,
                value,
            },
        }
    }

    // The value of an own cell for its holder.
    fn refresh_outgoing(&self, entry: usize) -> Outgoing
        requires { IsNext self.now (RefreshOf entry) }
        ensures foreign { IsForeign self.now.part.value result.to.0 }
        ensures sends { Sends (state_of self.now) result.to.0 result.body (after_send (RefreshOf entry) (state_of self.now)) }
    {
        let pending = self.refreshes.entries[entry];
        Outgoing {
            to: pending.holder.rank,
            body: CellBody::Refresh {
                slot: pending.holder.slot,
                value: self.own[pending.place as usize],
            },
        }
    }

    // The next body was sent.
    fn done(&mut self, next_send: NextSend)
        requires { IsNext self.old next_send }
        ensures state { state_of self.new ≡ after_send next_send (state_of self.old) }
        ensures resolver { self.new.resolver ≡ self.old.resolver }
        ensures part { self.new.part ≡ self.old.part }
        ensures phase { self.new.phase ≡ self.old.phase }
    {
        match next_send {
            NextSend::PutOf { slot } => self.pending_puts.settle(slot),
            NextSend::RefreshOf { .. } => self.refreshes.sent(),
        }
    }
}
