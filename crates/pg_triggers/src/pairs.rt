//! A pair of programs, which is one program.
ghost use Rattle.std.specs.Prelude.{◌≡◌, ℕ, ◌≤◌, ◌&&◌, true, false, None, option_map};
ghost use Rattle.std.specs.Option.{ForSome};
ghost use Rattle.pg_triggers.specs.Votes.{IsResting};
ghost use Rattle.pg_triggers.specs.Mine.{first_vote, second_vote};
ghost use Rattle.pg_triggers.specs.Endings.{EndsAlike};

use crate::Of2;
use crate::members::Member;
use crate::outs::{FirstOut, SecondOut};
use crate::votes::{first_votes, second_votes};
use pg_base::{RankNo, Ranks};
use pg_group::{Narrow, Next, Outbox, Program, Vote, Worked};
use std::marker::PhantomData;

/// Two programs over one group. The first member's vote is the pair's `a` and `b`, the second one's its `c`
/// and `d`. The pair stops where both have stopped; until then a member that stopped rests, and has
/// 18,446,744,073,709,551,615 and 0 in the pair's votes.
///
/// Source: Gregor and Lumsdaine, Lifting sequential graph algorithms for distributed-memory parallel computation
/// (OOPSLA 2005): several triggers over one process group.
#[derive(Drop)]
pub struct Pair<A: Narrow, B: Narrow> {
    first: A,
    second: B,
    first_ended: bool,
    second_ended: bool,
    vote: Option<Vote>,
    ghost same_rank: { B.own second ≡ A.own first },
    ghost same_size: { B.size second ≡ A.size first },
    ghost first_ends: { first_ended ≡ A.ended first },
    ghost second_ends: { second_ended ≡ B.ended second },
    ghost first_casts: { first_ended ≡ false → A.cast first ≡ option_map first_vote vote },
    ghost second_casts: { second_ended ≡ false → B.cast second ≡ option_map second_vote vote },
    ghost first_runs: { first_ended ≡ false → B.round second ≤ A.round first },
    ghost second_runs: { second_ended ≡ false → A.round first ≤ B.round second },
    ghost first_rests: { (first_ended && second_ended) ≡ false → first_ended ≡ true → ForSome vote (λ v. IsResting v.a v.b) },
    ghost second_rests: { (first_ended && second_ended) ≡ false → second_ended ≡ true → ForSome vote (λ v. IsResting v.c v.d) },
    ghost goes_on: { vote ≡ None → (first_ended && second_ended) ≡ false },
}

impl<A: Narrow, B: Narrow> Pair<A, B> {
    ghost use Rattle.pg_triggers.specs.Shown.{first_of, second_of};

    /// The pair of two new programs of one rank in one group, which is a new program of that rank.
    pub fn new(first: A, second: B) -> Pair<A, B>
        requires first_new { A.IsNew first }
        requires second_new { B.IsNew second }
        requires same_rank { B.own second ≡ A.own first }
        requires same_size { B.size second ≡ A.size first }
        ensures new { ⟦<Pair<A, B> as Program>⟧.IsNew result }
        ensures own { ⟦<Pair<A, B> as Program>⟧.own result ≡ A.own first }
        ensures size { ⟦<Pair<A, B> as Program>⟧.size result ≡ A.size first }
        ensures first { first_of result ≡ first }
        ensures second { second_of result ≡ second }
    {
        let _first = first.rank();
        let _second = second.rank();
        Pair {
            first,
            second,
            first_ended: false,
            second_ended: false,
            vote: None,
        }
    }

    /// The first member. All ranks of a group have ended it with the same round, where its stop is decided by
    /// one rule over the round's number and the votes.
    pub fn first(&self) -> &A
        ensures value { result.now ≡ first_of self.now }
        ensures same_end { EndsAlike ⟦<Pair<A, B> as Program>⟧ ⟦<A as Program>⟧ first_of self.now }
    {
        &self.first
    }

    /// The second member. All ranks of a group have ended it with the same round, where its stop is decided by
    /// one rule over the round's number and the votes.
    pub fn second(&self) -> &B
        ensures value { result.now ≡ second_of self.now }
        ensures same_end { EndsAlike ⟦<Pair<A, B> as Program>⟧ ⟦<B as Program>⟧ second_of self.now }
    {
        &self.second
    }
}

impl<A: Narrow, B: Narrow> Program for Pair<A, B> {
    ghost use Rattle.std.specs.Prelude.{◌≡◌, ℕ, ◌&&◌, ◌||◌, ◌⊎◌, true, false, Some, None, List, max};
    ghost use Rattle.pg_group.specs.declared.messages.Body.{Body};
    ghost use Rattle.pg_group.specs.declared.messages.Body.TheVariants.{Mark};
    ghost use Rattle.pg_group.specs.Supersteps.{append_others};
    ghost use Rattle.pg_triggers.specs.Mine.{first_vote, second_vote};
    ghost use Rattle.pg_triggers.specs.Paired.{BothKeep, FirstDid, SecondDid, OnMember};
    ghost use Rattle.pg_triggers.specs.Shown.{first_ended, second_ended};
    ghost use Rattle.pg_group.specs.declared.messages.Vote.{Vote};

    type Body = Of2<A::Body, B::Body>;

    ghost own = { λ p. A.own p.first };

    ghost size = { λ p. A.size p.first };

    ghost round = { λ p. max (A.round p.first) (B.round p.second) };

    ghost cast = { λ p. p.vote };

    ghost idle = { λ p. (p.first_ended || A.idle p.first) && (p.second_ended || B.idle p.second) };

    ghost ended = { λ p. p.first_ended && p.second_ended };

    ghost IsNew = { λ p. A.IsNew p.first × B.IsNew p.second × (p.vote ≡ None) };

    ghost Keeps = { λ start handled sent p. BothKeep (λ h s. A.Keeps start.first h s p.first) (λ h s. B.Keeps start.second h s p.second)
        (A.own p.first) (A.size p.first) (A.round p.first) (B.round p.second) p.first_ended p.second_ended p.vote handled sent };

    ghost DidItem = { λ old sent new more.
        (FirstDid (λ s m. A.DidItem old.first s new.first m) old.first_ended sent more × (new.second ≡ old.second))
        ⊎ (SecondDid (λ s m. B.DidItem old.second s new.second m) old.second_ended sent more × ((new.first ≡ old.first) ⊎ A.DidNothing old.first new.first)) };

    ghost DidHandle = { λ old from body new. OnMember body
        (λ item. A.DidHandle old.first from item new.first × (new.second ≡ old.second))
        (λ item. B.DidHandle old.second from item new.second × (new.first ≡ old.first))
        × (new.first_ended ≡ old.first_ended) × (new.second_ended ≡ old.second_ended) × (new.vote ≡ old.vote) };

    ghost DidNothing = { λ old new. ((new.first ≡ old.first) ⊎ A.DidNothing old.first new.first)
        × ((new.second ≡ old.second) ⊎ B.DidNothing old.second new.second)
        × (new.first_ended ≡ old.first_ended) × (new.second_ended ≡ old.second_ended) × (new.vote ≡ old.vote) };

    ghost IsVote = { λ vote. (A.IsVote (first_vote vote) ⊎ IsResting vote.a vote.b) × (B.IsVote (second_vote vote) ⊎ IsResting vote.c vote.d) };

    ghost NothingLeft = { λ p. (p.first_ended ≡ false → A.NothingLeft p.first) × (p.second_ended ≡ false → B.NothingLeft p.second) };

    fn rank(&self) -> RankNo {
        let _second = self.second.rank();
        self.first.rank()
    }

    fn ranks(&self) -> Ranks {
        self.first.ranks()
    }

    fn handle(&mut self, from: RankNo, body: Of2<A::Body, B::Body>) {
        match body {
            Of2::First(item) => self.first.handle(from, item),
            Of2::Second(item) => self.second.handle(from, item),
        }
    }

    fn work<O: Outbox<Of2<A::Body, B::Body>>>(&mut self, out: &mut O) -> Worked {
        let mut first_out = FirstOut {
            out: &mut *out,
            others: PhantomData::<B::Body>,
        };
        match self.first.work_on(self.first_ended, &mut first_out) {
            Worked::More => Worked::More,
            Worked::Blocked { to } => Worked::Blocked { to },
            Worked::Idle => {
                let mut second_out = SecondOut {
                    out,
                    others: PhantomData::<A::Body>,
                };
                self.second.work_on(self.second_ended, &mut second_out)
            }
        }
    }

    fn vote(&mut self) -> Vote
        requires idle { ⟦<Pair<A, B> as Program>⟧.idle self.old ≡ true }
        requires uncast { ⟦<Pair<A, B> as Program>⟧.cast self.old ≡ None }
        ensures kept { (start : _) (handled sent : List (List (Body _))) → ⟦<Pair<A, B> as Program>⟧.Keeps start handled sent self.old
            → ⟦<Pair<A, B> as Program>⟧.Keeps start handled (append_others (⟦<Pair<A, B> as Program>⟧.own self.old) (Mark result) sent) self.new }
        ensures cast { ⟦<Pair<A, B> as Program>⟧.cast self.new ≡ Some result }
        ensures form { ⟦<Pair<A, B> as Program>⟧.IsVote result }
        ensures first_votes { first_ended self.old ≡ false → A.IsVote (first_vote result) }
        ensures first_rests { first_ended self.old ≡ true → IsResting result.a result.b }
        ensures second_votes { second_ended self.old ≡ false → B.IsVote (second_vote result) }
        ensures second_rests { second_ended self.old ≡ true → IsResting result.c result.d }
        ensures same_own { ⟦<Pair<A, B> as Program>⟧.own self.new ≡ ⟦<Pair<A, B> as Program>⟧.own self.old }
        ensures same_size { ⟦<Pair<A, B> as Program>⟧.size self.new ≡ ⟦<Pair<A, B> as Program>⟧.size self.old }
        ensures same_round { ⟦<Pair<A, B> as Program>⟧.round self.new ≡ ⟦<Pair<A, B> as Program>⟧.round self.old }
        ensures same_idle { ⟦<Pair<A, B> as Program>⟧.idle self.new ≡ ⟦<Pair<A, B> as Program>⟧.idle self.old }
        ensures same_ended { ⟦<Pair<A, B> as Program>⟧.ended self.new ≡ ⟦<Pair<A, B> as Program>⟧.ended self.old }
    {
        let first = self.first.vote_on(self.first_ended);
        let second = self.second.vote_on(self.second_ended);
        let vote = Vote {
            a: first.a,
            b: first.b,
            c: second.a,
            d: second.b,
        };
        self.vote = Some(vote);
        vote
    }

    fn round_end(&mut self, votes: &[Vote]) -> Next {
        let _own = self.first.rank();
        let ranks = self.first.ranks().count() as usize;
        let firsts = first_votes(votes);
        let seconds = second_votes(votes);
        self.first_ended = self.first.end_on(self.first_ended, &firsts[..ranks]);
        self.second_ended = self.second.end_on(self.second_ended, &seconds[..ranks]);
        if self.first_ended && self.second_ended {
            return Next::Stop;
        }
        self.vote = None;
        Next::Again
    }
}
