//! The members of a pair, each of which rests once it has ended.
ghost use Rattle.std.specs.Prelude.{◌≡◌, ℕ, ◌+◌, ◌<◌, Bool, true, false, Option, Some, None, List, length, slice_get};
ghost use Rattle.pg_group.specs.declared.messages.Body.{Body};
ghost use Rattle.pg_group.specs.declared.messages.Body.TheVariants.{Mark};
ghost use Rattle.pg_group.specs.Ranked.{IsOther};
ghost use Rattle.pg_group.specs.Supersteps.{append_others, append_marks, SentAtMostOne, OnMore, OnIdle, OnBlocked, AreUnmarked};
ghost use Rattle.pg_triggers.specs.Votes.{IsResting};

use pg_group::{Narrow, Next, Outbox, Vote, Worked};

// The vote of a member that has ended.
const RESTING: Vote = Vote {
    a: u64::MAX,
    b: 0,
    c: 0,
    d: 0,
};

/// A member of a pair, which rests once it has ended: its calls do nothing from then on.
pub trait Member: Narrow {
    /// Does one item, as `Program::work` does. A member that has ended does and sends nothing, and answers `Idle`.
    fn work_on<O: Outbox<Self::Body>>(&mut self, ended: bool, out: &mut O) -> Worked
        requires ended { ended ≡ Self.ended self.old }
        requires uncast { ended ≡ false → Self.cast self.old ≡ None }
        requires own { O.own out.old ≡ Self.own self.old }
        requires size { O.size out.old ≡ Self.size self.old }
        requires unmarked { AreUnmarked (O.marks_sent out.old) }
        ensures kept { (start : Self) (handled : List (List (Body Self.Body))) → Self.Keeps start handled (O.sent out.old) self.old
            → Self.Keeps start handled (O.sent out.new) self.new }
        ensures rests { ended ≡ true → self.new ≡ self.old }
        ensures sends_none { ended ≡ true → O.sent out.new ≡ O.sent out.old }
        ensures more { OnMore result (Self.DidItem self.old (O.sent out.old) self.new (O.sent out.new)) }
        ensures one { OnMore result (SentAtMostOne (Self.own self.old) (Self.size self.old) (O.sent out.old) (O.sent out.new)) }
        ensures more_runs { OnMore result (ended ≡ false) }
        ensures more_shows { OnMore result (Self.idle self.new ≡ false) }
        ensures idle { OnIdle result (ended ≡ false → Self.NothingLeft self.new) }
        ensures idle_did { OnIdle result (ended ≡ false → Self.DidNothing self.old self.new) }
        ensures idle_sends { OnIdle result (O.sent out.new ≡ O.sent out.old) }
        ensures idle_rests { OnIdle result (out.new ≡ out.old) }
        ensures idle_shows { OnIdle result (ended ≡ false → Self.idle self.new ≡ true) }
        ensures blocked { OnBlocked result (λ to. IsOther (Self.own self.old) (Self.size self.old) to × O.saw_full out.old to out.new) }
        ensures blocked_runs { OnBlocked result (λ _. ended ≡ false) }
        ensures blocked_did { OnBlocked result (λ _. Self.DidNothing self.old self.new) }
        ensures blocked_sends { OnBlocked result (λ _. O.sent out.new ≡ O.sent out.old) }
        ensures blocked_shows { OnBlocked result (λ _. Self.idle self.new ≡ false) }
        ensures same_own { Self.own self.new ≡ Self.own self.old }
        ensures same_size { Self.size self.new ≡ Self.size self.old }
        ensures same_round { Self.round self.new ≡ Self.round self.old }
        ensures same_cast { Self.cast self.new ≡ Self.cast self.old }
        ensures same_ended { Self.ended self.new ≡ Self.ended self.old }
        ensures out_own { O.own out.new ≡ O.own out.old }
        ensures out_size { O.size out.new ≡ O.size out.old }
        ensures out_marks { O.marks_sent out.new ≡ O.marks_sent out.old }
        ensures out_rest { O.SameRest out.old out.new }
        ensures out_later { O.Later out.old out.new };

    /// The member's vote of this round, with 0 in `c` and `d`. That of a member that has ended has the greatest number
    /// in `a` and 0 in `b`.
    fn vote_on(&mut self, ended: bool) -> Vote
        requires ended { ended ≡ Self.ended self.old }
        requires idle { ended ≡ false → Self.idle self.old ≡ true }
        requires uncast { ended ≡ false → Self.cast self.old ≡ None }
        ensures kept { ended ≡ false → (start : Self) (handled sent : List (List (Body Self.Body))) → Self.Keeps start handled sent self.old
            → Self.Keeps start handled (append_others (Self.own self.old) (Mark result) sent) self.new }
        ensures rests { ended ≡ true → self.new ≡ self.old }
        ensures resting { ended ≡ true → IsResting result.a result.b }
        ensures form { ended ≡ false → Self.IsVote result }
        ensures c { result.c ≡ 0 }
        ensures d { result.d ≡ 0 }
        ensures cast { ended ≡ false → Self.cast self.new ≡ Some result }
        ensures same_own { Self.own self.new ≡ Self.own self.old }
        ensures same_size { Self.size self.new ≡ Self.size self.old }
        ensures same_round { Self.round self.new ≡ Self.round self.old }
        ensures same_idle { Self.idle self.new ≡ Self.idle self.old }
        ensures same_ended { Self.ended self.new ≡ Self.ended self.old };

    /// Ends the round with the votes of all ranks, by rank, as the member reads them. Answers whether the member has
    /// ended; one that had ended before stays as it is.
    fn end_on(&mut self, ended: bool, votes: &[Vote]) -> bool
        requires ended { ended ≡ Self.ended self.old }
        requires each { length votes.now ≡ Self.size self.old }
        requires mine { ended ≡ false → slice_get votes.now (Self.own self.old) ≡ Self.cast self.old }
        ensures kept { ended ≡ false → (start : Self) (handled sent : List (List (Body Self.Body))) → Self.Keeps start handled sent self.old
            → Self.Keeps start (append_marks (Self.own self.old) votes.now handled) sent self.new }
        ensures rests { ended ≡ true → self.new ≡ self.old }
        ensures ended { result ≡ Self.ended self.new }
        ensures stays { ended ≡ true → result ≡ true }
        ensures again { result ≡ false → Self.round self.new ≡ Self.round self.old + 1 }
        ensures uncast { result ≡ false → Self.cast self.new ≡ None }
        ensures not_idle { result ≡ false → Self.idle self.new ≡ false }
        ensures last_round { result ≡ true → Self.round self.new ≡ Self.round self.old }
        ensures same_own { Self.own self.new ≡ Self.own self.old }
        ensures same_size { Self.size self.new ≡ Self.size self.old };
}

impl<P: Narrow> Member for P {
    fn work_on<O: Outbox<P::Body>>(&mut self, ended: bool, out: &mut O) -> Worked {
        if ended {
            return Worked::Idle;
        }
        self.work(out)
    }

    fn vote_on(&mut self, ended: bool) -> Vote {
        if ended {
            return RESTING;
        }
        self.vote()
    }

    fn end_on(&mut self, ended: bool, votes: &[Vote]) -> bool {
        if ended {
            return true;
        }
        match self.round_end(votes) {
            Next::Again => false,
            Next::Stop => true,
        }
    }
}
