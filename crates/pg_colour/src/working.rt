//! The items of a round, one by one, and what stands between rounds.
ghost use Rattle.std.specs.Prelude.{◌≡◌, ◌↔◌, ◌+◌, true, false, None, length};
ghost use Rattle.pg_cells.specs.declared.phases.Phase.TheVariants.{Filling, Refreshing};
ghost use Rattle.pg_group.specs.Ranked.{IsOther};
ghost use Rattle.pg_group.specs.Supersteps.{AreUnmarked, OnBlocked, OnIdle, OnMore, SentAtMostOne};
ghost use Rattle.pg_colour.specs.Rounds.{count_of};
ghost use Rattle.pg_colour.specs.Shown.{state_of};
ghost use Rattle.pg_colour.specs.Items.{ColoursOne, IsDone, RefreshesOne, TurnsRound, phase_in};
ghost use Rattle.pg_colour.specs.Steps.{AreClashes};

use crate::Colouring;
use crate::clashes::list_clashes;
use crate::fitting::least_free;
use pg_cells::{CellBody, Phase};
use pg_group::{Outbox, Worked};

impl Colouring {
    // Whether the cells are refreshed in this round.
    pub(crate) fn refreshes(&self) -> bool
        ensures refreshes { result ≡ true → phase_in (count_of self.now.rounds) ≡ Refreshing }
        ensures fills { result ≡ false → phase_in (count_of self.now.rounds) ≡ Filling }
    {
        match self.cells.phase() {
            Phase::Refreshing => true,
            _ => false,
        }
    }

    // What the vote of this round says: how many vertices the pass has, or 1.
    pub(crate) fn amount(&self) -> u64
        ensures pass { phase_in (count_of self.now.rounds) ≡ Filling → result ≡ length self.now.list.items }
        ensures refresh { phase_in (count_of self.now.rounds) ≡ Refreshing → result ≡ 1 }
    {
        if self.refreshes() {
            return 1;
        }
        self.list.len() as u64
    }

    // Colours the next vertex of the list, if one is left. Answers whether there was one.
    pub(crate) fn colour_next(&mut self) -> bool
        requires pass { phase_in (count_of self.old.rounds) ≡ Filling }
        requires uncast { self.old.cast ≡ None }
        ensures coloured { result ≡ true → ColoursOne self.old.part (state_of self.old) (state_of self.new) }
        ensures done { result ≡ false → IsDone self.new.part (state_of self.new) }
        ensures rests { result ≡ false → state_of self.new ≡ state_of self.old }
        ensures idle { self.new.idle ≡ true → result ≡ false }
        ensures shows { result ≡ false → self.new.idle ≡ true }
        ensures part { self.new.part ≡ self.old.part }
        ensures rounds { self.new.rounds ≡ self.old.rounds }
        ensures cast { self.new.cast ≡ self.old.cast }
        ensures ended { self.new.ended ≡ self.old.ended }
    {
        if self.next == self.list.len() {
            self.idle = true;
            return false;
        }
        let place = self.list[self.next];
        let palette = &mut self.palette;
        let colour = least_free(&self.part, &self.cells, &self.slots, place, palette);
        self.cells.put_at(place, colour);
        self.next += 1;
        self.idle = false;
        true
    }

    // Sends the next refresh, if one is left.
    pub(crate) fn refresh_next<O: Outbox<CellBody>>(&mut self, out: &mut O) -> Worked
        requires refresh { phase_in (count_of self.old.rounds) ≡ Refreshing }
        requires uncast { self.old.cast ≡ None }
        requires own { O.own out.old ≡ self.old.part.rank }
        requires size { O.size out.old ≡ self.old.part.ranks }
        requires unmarked { AreUnmarked (O.marks_sent out.old) }
        ensures sent { OnMore result (RefreshesOne self.old.part (state_of self.old) (state_of self.new) (O.sent out.old) (O.sent out.new)) }
        ensures other { OnMore result (SentAtMostOne self.old.part.rank self.old.part.ranks (O.sent out.old) (O.sent out.new)) }
        ensures busy { OnMore result (self.new.idle ≡ false) }
        ensures done { OnIdle result (IsDone self.new.part (state_of self.new)) }
        ensures rests { OnIdle result (state_of self.new ≡ state_of self.old) }
        ensures idle { OnIdle result (self.new.idle ≡ true) }
        ensures idle_sends { OnIdle result (out.new ≡ out.old) }
        ensures blocked { OnBlocked result (λ to. IsOther self.old.part.rank self.old.part.ranks to × O.saw_full out.old to out.new) }
        ensures blocked_stays { OnBlocked result (λ _. state_of self.new ≡ state_of self.old) }
        ensures blocked_sends { OnBlocked result (λ _. O.sent out.new ≡ O.sent out.old) }
        ensures blocked_shows { OnBlocked result (λ _. self.new.idle ≡ false) }
        ensures part { self.new.part ≡ self.old.part }
        ensures rounds { self.new.rounds ≡ self.old.rounds }
        ensures cast { self.new.cast ≡ self.old.cast }
        ensures ended { self.new.ended ≡ self.old.ended }
        ensures out_own { O.own out.new ≡ O.own out.old }
        ensures out_size { O.size out.new ≡ O.size out.old }
        ensures out_marks { O.marks_sent out.new ≡ O.marks_sent out.old }
        ensures out_rest { O.SameRest out.old out.new }
        ensures out_later { O.Later out.old out.new }
    {
        let worked = self.cells.work(out);
        match worked {
            Worked::More => {
                self.next += 1;
                self.idle = false;
            }
            Worked::Idle => self.idle = true,
            Worked::Blocked { .. } => self.idle = false,
        }
        worked
    }

    // Turns from a pass to the round in which the cells are refreshed.
    pub(crate) fn begin_refresh(&mut self)
        requires pass { phase_in (count_of self.old.rounds) ≡ Filling }
        requires running { self.old.ended ≡ false }
        ensures turns { TurnsRound (state_of self.old) (state_of self.new) }
        ensures idle { self.new.idle ≡ false }
        ensures part { self.new.part ≡ self.old.part }
    {
        self.cells.close();
        self.cells.end_round();
        self.rounds.count();
        self.next = 0;
        self.idle = false;
        self.cast = None;
    }

    // Turns from a round in which the cells were refreshed to the next pass.
    pub(crate) fn begin_pass(&mut self)
        requires refresh { phase_in (count_of self.old.rounds) ≡ Refreshing }
        requires idle { self.old.idle ≡ true }
        requires running { self.old.ended ≡ false }
        ensures turns { TurnsRound (state_of self.old) (state_of self.new) }
        ensures list { AreClashes self.old.part (state_of self.old) (state_of self.new).list }
        ensures idle { self.new.idle ≡ false }
        ensures part { self.new.part ≡ self.old.part }
    {
        self.cells.end_round();
        list_clashes(&self.part, &self.cells, &self.slots, &mut self.list);
        self.rounds.count();
        self.next = 0;
        self.idle = false;
        self.cast = None;
    }
}
