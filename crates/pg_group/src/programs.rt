//! Rank programs: what the program of one rank does in each round, and what it promises of a whole run.
ghost use Rattle.std.specs.Prelude.{◌≡◌, ℕ, ◌+◌, ◌-◌, ◌<◌, Bool, true, false, Option, Some, None, List, [], length, replicate, slice_get};
ghost use Rattle.pg_group.specs.declared.messages.Body.{Body};
ghost use Rattle.pg_group.specs.declared.messages.Body.TheVariants.{Item, Mark};
ghost use Rattle.pg_group.specs.declared.messages.Vote.{Vote};
ghost use Rattle.pg_group.specs.Ranked.{IsOther, append_at, flag_at};
ghost use Rattle.pg_group.specs.Supersteps.{append_others, append_marks, nothing, SentAtMostOne, OnMore, OnIdle, OnBlocked, OnAgain, OnStop, is_stop, AreUnmarked};

use crate::{Outbox, Vote};
use pg_base::{RankNo, Ranks};

/// What one call of `work` did.
#[derive(Clone, Copy, Debug, PartialEq, Eq)]
pub enum Worked {
    /// One item was done.
    More,
    /// No item is left in this round.
    Idle,
    /// The lane to this rank was full, and no item was done.
    Blocked { to: RankNo },
}

/// What follows a round.
#[derive(Clone, Copy, Debug, PartialEq, Eq)]
pub enum Next {
    /// A further round.
    Again,
    /// Nothing: the program has ended.
    Stop,
}

/// A program of one rank of a group, which runs in supersteps, the rounds. In each round it handles what the other
/// ranks send and works until it is idle; then it votes, and the round ends once every rank's vote is known.
///
/// `Keeps start handled sent now` is what a program promises of a whole run: from its opening state, the
/// bodies handled by sender and the bodies sent by receiver, to its present state. Each call keeps it. It
/// says nothing of the order between lanes, nor of time.
/// Source: Valiant, A bridging model for parallel computation (CACM 33(8), 1990): supersteps.
pub trait Program: Send {
    /// What the ranks send each other.
    type Body: Copy + Send;

    /// The program's rank.
    ghost own: { Self → ℕ };

    /// How many ranks the group has.
    ghost size: { Self → ℕ };

    /// How many rounds have ended with another one to follow.
    ghost round: { Self → ℕ };

    /// The vote of this round, once it is cast.
    ghost cast: { Self → Option Vote };

    /// Whether the last call of `work` in this round answered that no item is left.
    ghost idle: { Self → Bool };

    /// Whether the last round has ended.
    ghost ended: { Self → Bool };

    /// The program was just made.
    ghost IsNew: { Self → Type 0 };

    /// From the opening state, by what was handled from each rank and sent to each rank, to the present state.
    ghost Keeps: { Self → List (List (Body Self.Body)) → List (List (Body Self.Body)) → Self → Type 0 };

    /// One item was done: the state and the sent lists before, and both after it.
    ghost DidItem: { Self → List (List (Body Self.Body)) → Self → List (List (Body Self.Body)) → Type 0 };

    /// One message was handled: the state before, its sender, its item, and the state after.
    ghost DidHandle: { Self → ℕ → Self.Body → Self → Type 0 };

    /// No item was done between two states.
    ghost DidNothing: { Self → Self → Type 0 };

    /// What each of its votes meets.
    ghost IsVote: { Vote → Type 0 };

    /// No item is left in this round.
    ghost NothingLeft: { Self → Type 0 };

    /// The program's rank, below the number of ranks. The other clauses say what a new program shows: it is in round 0,
    /// has no vote, isn't idle and hasn't ended.
    fn rank(&self) -> RankNo
        ensures rank { result.0 ≡ own self.now }
        ensures within { own self.now < size self.now }
        ensures first_round { IsNew self.now → round self.now ≡ 0 }
        ensures no_vote { IsNew self.now → cast self.now ≡ None }
        ensures not_idle { IsNew self.now → idle self.now ≡ false }
        ensures not_ended { IsNew self.now → ended self.now ≡ false }
        ensures opening { IsNew self.now → Keeps self.now (nothing (size self.now)) (nothing (size self.now)) self.now };

    /// How many ranks the group has.
    fn ranks(&self) -> Ranks
        ensures { result ≡ size self.now };

    /// Takes one item from another rank, also after the program has ended. Sends nothing; the round, the vote and
    /// whether it is idle or has ended stay the same.
    fn handle(&mut self, from: RankNo, body: Self::Body)
        requires { IsOther (own self.old) (size self.old) from.0 }
        ensures kept { (start : Self) (handled sent : List (List (Body Self.Body))) → Keeps start handled sent self.old
            → Keeps start (append_at handled from.0 (Item body)) sent self.new }
        ensures did { DidHandle self.old from.0 body self.new }
        ensures same_own { own self.new ≡ own self.old }
        ensures same_size { size self.new ≡ size self.old }
        ensures same_round { round self.new ≡ round self.old }
        ensures same_cast { cast self.new ≡ cast self.old }
        ensures same_idle { idle self.new ≡ idle self.old }
        ensures same_ended { ended self.new ≡ ended self.old };

    /// Does one item, which sends at most one message, before the vote of this round is cast. `Idle` says that no item
    /// is left, and `Blocked` comes only where the lane to that rank was full at one moment of this call; nothing is
    /// sent then. The outbox sends no mark.
    fn work<O: Outbox<Self::Body>>(&mut self, out: &mut O) -> Worked
        requires uncast { cast self.old ≡ None }
        requires own { O.own out.old ≡ own self.old }
        requires size { O.size out.old ≡ size self.old }
        requires unmarked { AreUnmarked (O.marks_sent out.old) }
        ensures kept { (start : Self) (handled : List (List (Body Self.Body))) → Keeps start handled (O.sent out.old) self.old
            → Keeps start handled (O.sent out.new) self.new }
        ensures more { OnMore result (DidItem self.old (O.sent out.old) self.new (O.sent out.new)) }
        ensures one { OnMore result (SentAtMostOne (own self.old) (size self.old) (O.sent out.old) (O.sent out.new)) }
        ensures more_shows { OnMore result (idle self.new ≡ false) }
        ensures idle { OnIdle result (NothingLeft self.new) }
        ensures idle_did { OnIdle result (DidNothing self.old self.new) }
        ensures idle_sends { OnIdle result (O.sent out.new ≡ O.sent out.old) }
        ensures idle_rests { OnIdle result (out.new ≡ out.old) }
        ensures idle_shows { OnIdle result (idle self.new ≡ true) }
        ensures blocked { OnBlocked result (λ to. IsOther (own self.old) (size self.old) to × O.saw_full out.old to out.new) }
        ensures blocked_did { OnBlocked result (λ _. DidNothing self.old self.new) }
        ensures blocked_sends { OnBlocked result (λ _. O.sent out.new ≡ O.sent out.old) }
        ensures blocked_shows { OnBlocked result (λ _. idle self.new ≡ false) }
        ensures same_own { own self.new ≡ own self.old }
        ensures same_size { size self.new ≡ size self.old }
        ensures same_round { round self.new ≡ round self.old }
        ensures same_cast { cast self.new ≡ cast self.old }
        ensures same_ended { ended self.new ≡ ended self.old }
        ensures out_own { O.own out.new ≡ O.own out.old }
        ensures out_size { O.size out.new ≡ O.size out.old }
        ensures out_marks { O.marks_sent out.new ≡ O.marks_sent out.old }
        ensures out_rest { O.SameRest out.old out.new }
        ensures out_later { O.Later out.old out.new };

    /// The vote of this round, which ends its work; it is cast once a round, when no item is left. It counts as sent to
    /// every other rank from here on.
    fn vote(&mut self) -> Vote
        requires idle { idle self.old ≡ true }
        requires uncast { cast self.old ≡ None }
        ensures kept { (start : Self) (handled sent : List (List (Body Self.Body))) → Keeps start handled sent self.old
            → Keeps start handled (append_others (own self.old) (Mark result) sent) self.new }
        ensures cast { cast self.new ≡ Some result }
        ensures form { IsVote result }
        ensures same_own { own self.new ≡ own self.old }
        ensures same_size { size self.new ≡ size self.old }
        ensures same_round { round self.new ≡ round self.old }
        ensures same_idle { idle self.new ≡ idle self.old }
        ensures same_ended { ended self.new ≡ ended self.old };

    /// Ends the round with the votes of all ranks, by rank, the own one among them. `Stop` says that the program has
    /// ended; with `Again` the next round begins, without a vote.
    fn round_end(&mut self, votes: &[Vote]) -> Next
        requires running { ended self.old ≡ false }
        requires each { length votes.now ≡ size self.old }
        requires mine { slice_get votes.now (own self.old) ≡ cast self.old }
        ensures kept { (start : Self) (handled sent : List (List (Body Self.Body))) → Keeps start handled sent self.old
            → Keeps start (append_marks (own self.old) votes.now handled) sent self.new }
        ensures stop { ended self.new ≡ is_stop result }
        ensures again { OnAgain result (round self.new ≡ round self.old + 1) }
        ensures uncast { OnAgain result (cast self.new ≡ None) }
        ensures not_idle { OnAgain result (idle self.new ≡ false) }
        ensures last_round { OnStop result (round self.new ≡ round self.old) }
        ensures last_vote { OnStop result (cast self.new ≡ cast self.old) }
        ensures same_own { own self.new ≡ own self.old }
        ensures same_size { size self.new ≡ size self.old };
}

/// A program whose votes leave the numbers `c` and `d` at 0, so that two such programs fit one vote.
pub trait Narrow: Program {
    /// Each of its votes has 0 in `c` and `d`.
    ghost narrow: { (vote : Vote) → Self.IsVote vote → (vote.c ≡ 0) × (vote.d ≡ 0) };
}
