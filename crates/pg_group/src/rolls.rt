//! A small rank program: each rank sends its number to all others, and counts what it gets.
ghost use Rattle.std.specs.Prelude.{◌≡◌, ◌⊎◌, ℕ, ◌+◌, ◌<◌, ◌≤◌, ◌↔◌, true, Option, None, IfSome};
ghost use Rattle.pg_base.specs.declared.TheConstants.{MAX_RANKS};
ghost use Rattle.pg_group.specs.declared.messages.Vote.{Vote};
ghost use Rattle.pg_group.specs.Ranked.{IsOther};

use crate::{Narrow, Next, Outbox, Program, Vote, Worked};
use pg_base::{RankNo, Ranks};

/// A small program that calls the roll: in each round it sends its rank's number once to every other rank, and it
/// counts the messages that it gets. It votes zeros, and stops with its last round. Tests run it, and it is a first
/// example of a program.
#[derive(Clone, Copy, Debug, PartialEq, Eq)]
pub struct Roll {
    rank: RankNo,
    ranks: Ranks,
    rounds: u32,
    round: u32,
    // Every other rank below was sent the number since the last vote.
    next: u32,
    taken: u64,
    idle: bool,
    cast: Option<Vote>,
    ended: bool,
    ghost in_group: { rank.0 < ranks },
    ghost in_rounds: { round < rounds },
    ghost all_sent: { idle ≡ true → cast ≡ None → (to : ℕ) → IsOther rank.0 ranks to → to < next },
}

const ZEROS: Vote = Vote {
    a: 0,
    b: 0,
    c: 0,
    d: 0,
};

impl Roll {
    ghost use Rattle.pg_group.specs.Rolls.{IsNewRoll, SentToAll, rounds_of, taken_by};

    /// The roll of one rank of a group, for this many rounds, at least 1.
    pub fn new(rank: RankNo, ranks: Ranks, rounds: u32) -> Roll
        requires within { rank.0 < ranks }
        requires at_least_one { 1 ≤ rounds }
        ensures new { ⟦<Roll as Program>⟧.IsNew result }
        ensures own { ⟦<Roll as Program>⟧.own result ≡ rank.0 }
        ensures size { ⟦<Roll as Program>⟧.size result ≡ ranks }
        ensures rounds { rounds_of result ≡ rounds }
    {
        Roll {
            rank,
            ranks,
            rounds,
            round: 0,
            next: 0,
            taken: 0,
            idle: false,
            cast: None,
            ended: false,
        }
    }

    /// How many messages it has taken, modulo 2^64.
    pub fn taken(&self) -> u64
        ensures { result ≡ taken_by self.now }
    {
        self.taken
    }

    // The next rank that is sent the number in this round.
    fn receiver(&self) -> Option<RankNo>
        ensures other { IfSome result (λ to. IsOther self.now.rank.0 self.now.ranks to.0) }
        ensures ascending { IfSome result (λ to. (self.now.next ≡ to.0) ⊎ ((self.now.next ≡ self.now.rank.0) × (to.0 ≡ self.now.next + 1))) }
        ensures few { IfSome result (λ to. to.0 < MAX_RANKS) }
        ensures all_sent { result ≡ None → SentToAll self.now }
    {
        let ranks = self.ranks.count();
        let to = if self.next == self.rank.0 {
            self.next + 1
        } else {
            self.next
        };
        (to < ranks).then_some(RankNo(to))
    }
}

impl Program for Roll {
    ghost use Rattle.std.specs.Prelude.{false, List, length, slice_get, nat_eq};
    ghost use Rattle.pg_group.specs.declared.messages.Body.{Body};
    ghost use Rattle.pg_group.specs.declared.rolls.Roll.{Roll};
    ghost use Rattle.pg_group.specs.Supersteps.{append_marks, is_stop, OnAgain, OnStop};
    ghost use Rattle.pg_group.specs.Rolls.{IsNewRoll, HasRolled, SentOne, CountedOne, DidNoItem, SentToAll, IsZeros, rounds_of};

    type Body = u32;

    ghost own = { λ roll. roll.rank.0 };

    ghost size = { λ roll. roll.ranks };

    ghost round = { λ roll. roll.round };

    ghost cast = { λ roll. roll.cast };

    ghost idle = { λ roll. roll.idle };

    ghost ended = { λ roll. roll.ended };

    ghost IsNew = { IsNewRoll };

    ghost Keeps = { HasRolled };

    ghost DidItem = { λ roll sent after more_sent. SentOne roll sent more_sent };

    ghost DidHandle = { λ roll from body after. CountedOne roll after };

    ghost DidNothing = { DidNoItem };

    ghost IsVote = { IsZeros };

    ghost NothingLeft = { SentToAll };

    fn rank(&self) -> RankNo {
        self.rank
    }

    fn ranks(&self) -> Ranks {
        self.ranks
    }

    fn handle(&mut self, _from: RankNo, _body: u32) {
        self.taken = self.taken.wrapping_add(1);
    }

    fn work<O: Outbox<u32>>(&mut self, out: &mut O) -> Worked {
        match self.receiver() {
            None => {
                self.idle = true;
                Worked::Idle
            }
            Some(to) => match out.send(to, self.rank.0) {
                Ok(()) => {
                    self.next = to.0 + 1;
                    Worked::More
                }
                Err(_) => Worked::Blocked { to },
            },
        }
    }

    fn vote(&mut self) -> Vote {
        self.next = 0;
        self.cast = Some(ZEROS);
        ZEROS
    }

    fn round_end(&mut self, _votes: &[Vote]) -> Next
        requires running { ⟦<Roll as Program>⟧.ended self.old ≡ false }
        requires each { length _votes.now ≡ ⟦<Roll as Program>⟧.size self.old }
        requires mine { slice_get _votes.now (⟦<Roll as Program>⟧.own self.old) ≡ ⟦<Roll as Program>⟧.cast self.old }
        ensures kept { (start : Roll) (handled sent : List (List (Body ℕ))) → HasRolled start handled sent self.old
            → HasRolled start (append_marks (⟦<Roll as Program>⟧.own self.old) _votes.now handled) sent self.new }
        ensures stops { is_stop result ≡ nat_eq (⟦<Roll as Program>⟧.round self.old + 1) (rounds_of self.old) }
        ensures stop { ⟦<Roll as Program>⟧.ended self.new ≡ is_stop result }
        ensures again { OnAgain result (⟦<Roll as Program>⟧.round self.new ≡ ⟦<Roll as Program>⟧.round self.old + 1) }
        ensures uncast { OnAgain result (⟦<Roll as Program>⟧.cast self.new ≡ None) }
        ensures not_idle { OnAgain result (⟦<Roll as Program>⟧.idle self.new ≡ false) }
        ensures last_round { OnStop result (⟦<Roll as Program>⟧.round self.new ≡ ⟦<Roll as Program>⟧.round self.old) }
        ensures last_vote { OnStop result (⟦<Roll as Program>⟧.cast self.new ≡ ⟦<Roll as Program>⟧.cast self.old) }
        ensures same_own { ⟦<Roll as Program>⟧.own self.new ≡ ⟦<Roll as Program>⟧.own self.old }
        ensures same_size { ⟦<Roll as Program>⟧.size self.new ≡ ⟦<Roll as Program>⟧.size self.old }
    {
        if self.round + 1 == self.rounds {
            self.ended = true;
            return Next::Stop;
        }
        self.round += 1;
        self.cast = None;
        self.idle = false;
        Next::Again
    }
}

impl Narrow for Roll {
    ghost narrow = { λ vote zeros. (zeros.c, zeros.d) };
}
