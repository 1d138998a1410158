//! Colouring as a rank program.
ghost use Rattle.std.specs.Prelude.{◌≡◌, true, false};
ghost use Rattle.pg_colour.specs.Steps.{AreNothing};

use crate::Colouring;
use pg_base::{RankNo, Ranks};
use pg_cells::CellBody;
use pg_group::{Narrow, Next, Outbox, Program, Vote, Worked};

// Whether no rank had a vertex to colour.
fn are_nothing(votes: &[Vote]) -> bool
    ensures nothing { result ≡ true → AreNothing votes.now }
    ensures not { result ≡ false → AreNothing votes.now → ⊥ }
{
    votes.iter().all(|vote| vote.a == 0)
}

impl Program for Colouring {
    ghost use Rattle.std.specs.Prelude.{◌≡◌, ◌+◌, true, false, None, Some, List, length, slice_get};
    ghost use Rattle.pg_group.specs.declared.messages.Body.{Body};
    ghost use Rattle.pg_group.specs.declared.messages.Body.TheVariants.{Mark};
    ghost use Rattle.pg_group.specs.Supersteps.{append_marks, append_others, is_stop, OnAgain, OnStop};
    ghost use Rattle.pg_cells.specs.declared.bodies.CellBody.{CellBody};
    ghost use Rattle.pg_colour.specs.declared.colouring.Colouring.{Colouring};
    ghost use Rattle.pg_colour.specs.Rounds.{count_of};
    ghost use Rattle.pg_colour.specs.Shown.{IsNewColouring, KeepsColoured, part_in, state_of};
    ghost use Rattle.pg_colour.specs.Items.{DoesOne, Handles, IsDone, IsNarrow};
    ghost use Rattle.pg_colour.specs.Steps.{HasGoneOn, HasStopped, HasVoted, IsVoteOf};

    type Body = CellBody;

    ghost own = { λ c. c.part.rank };

    ghost size = { λ c. c.part.ranks };

    ghost round = { λ c. count_of c.rounds };

    ghost cast = { λ c. c.cast };

    ghost idle = { λ c. c.idle };

    ghost ended = { λ c. c.ended };

    ghost IsNew = { IsNewColouring };

    ghost Keeps = { KeepsColoured };

    ghost DidItem = { λ old sent new more. DoesOne old.part (state_of old) (state_of new) sent more };

    ghost DidHandle = { λ old from body new. Handles old.part body (state_of old) (state_of new) };

    ghost DidNothing = { λ old new. (new.part ≡ old.part) × (state_of new ≡ state_of old) };

    ghost IsVote = { IsNarrow };

    ghost NothingLeft = { λ c. IsDone c.part (state_of c) };

    fn rank(&self) -> RankNo {
        self.part.rank()
    }

    fn ranks(&self) -> Ranks {
        self.part.ranks()
    }

    fn handle(&mut self, from: RankNo, body: CellBody) {
        if let CellBody::Refresh { .. } = body {
            self.cells.handle(from, body);
        }
    }

    fn work<O: Outbox<CellBody>>(&mut self, out: &mut O) -> Worked {
        if self.refreshes() {
            self.refresh_next(out)
        } else if self.colour_next() {
            Worked::More
        } else {
            Worked::Idle
        }
    }

    /// Ends the work of this round. In a pass `a` is how many vertices were coloured, in a round of refreshes 1.
    fn vote(&mut self) -> Vote
        requires idle { ⟦<Colouring as Program>⟧.idle self.old ≡ true }
        requires uncast { ⟦<Colouring as Program>⟧.cast self.old ≡ None }
        ensures kept { (start : Colouring) (handled sent : List (List (Body CellBody))) → KeepsColoured start handled sent self.old
            → KeepsColoured start handled (append_others (part_in self.old).rank (Mark result) sent) self.new }
        ensures says { IsVoteOf (part_in self.old) (state_of self.old) result }
        ensures voted { HasVoted (part_in self.old) result (state_of self.old) (state_of self.new) }
        ensures cast { ⟦<Colouring as Program>⟧.cast self.new ≡ Some result }
        ensures form { IsNarrow result }
        ensures same_own { (part_in self.new).rank ≡ (part_in self.old).rank }
        ensures same_size { (part_in self.new).ranks ≡ (part_in self.old).ranks }
        ensures same_round { ⟦<Colouring as Program>⟧.round self.new ≡ ⟦<Colouring as Program>⟧.round self.old }
        ensures same_idle { ⟦<Colouring as Program>⟧.idle self.new ≡ ⟦<Colouring as Program>⟧.idle self.old }
        ensures same_ended { ⟦<Colouring as Program>⟧.ended self.new ≡ ⟦<Colouring as Program>⟧.ended self.old }
    {
        let vote = Vote {
            a: self.amount(),
            b: 0,
            c: 0,
            d: 0,
        };
        self.cast = Some(vote);
        vote
    }

    /// Ends the round with the votes of all ranks, also its own. `Stop` comes exactly with a pass in which no rank had
    /// a vertex to colour.
    fn round_end(&mut self, votes: &[Vote]) -> Next
        requires running { ⟦<Colouring as Program>⟧.ended self.old ≡ false }
        requires each { length votes.now ≡ (part_in self.old).ranks }
        requires mine { slice_get votes.now (part_in self.old).rank ≡ ⟦<Colouring as Program>⟧.cast self.old }
        ensures kept { (start : Colouring) (handled sent : List (List (Body CellBody))) → KeepsColoured start handled sent self.old
            → KeepsColoured start (append_marks (part_in self.old).rank votes.now handled) sent self.new }
        ensures stops { OnStop result (HasStopped (part_in self.old) votes.now (state_of self.old) (state_of self.new)) }
        ensures goes_on { OnAgain result (HasGoneOn (part_in self.old) votes.now (state_of self.old) (state_of self.new)) }
        ensures stop { ⟦<Colouring as Program>⟧.ended self.new ≡ is_stop result }
        ensures again { OnAgain result (⟦<Colouring as Program>⟧.round self.new ≡ ⟦<Colouring as Program>⟧.round self.old + 1) }
        ensures uncast { OnAgain result (⟦<Colouring as Program>⟧.cast self.new ≡ None) }
        ensures not_idle { OnAgain result (⟦<Colouring as Program>⟧.idle self.new ≡ false) }
        ensures last_round { OnStop result (⟦<Colouring as Program>⟧.round self.new ≡ ⟦<Colouring as Program>⟧.round self.old) }
        ensures last_vote { OnStop result (⟦<Colouring as Program>⟧.cast self.new ≡ ⟦<Colouring as Program>⟧.cast self.old) }
        ensures same_own { (part_in self.new).rank ≡ (part_in self.old).rank }
        ensures same_size { (part_in self.new).ranks ≡ (part_in self.old).ranks }
    {
        // For the facts that it ensures.
        let _rank = self.part.rank();
        if self.refreshes() {
            self.begin_pass();
            return Next::Again;
        }
        if are_nothing(votes) {
            self.ended = true;
            return Next::Stop;
        }
        self.begin_refresh();
        Next::Again
    }
}

impl Narrow for Colouring {
    ghost narrow = { λ vote narrow. (narrow.c, narrow.d) };
}
