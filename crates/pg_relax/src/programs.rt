//! Relaxation as a rank program.
ghost use Rattle.std.specs.Prelude.{◌≡◌, ◌+◌, true, false, None, Some, List, length, slice_get};
ghost use Rattle.pg_group.specs.declared.messages.Body.{Body};
ghost use Rattle.pg_group.specs.declared.messages.Body.TheVariants.{Mark};
ghost use Rattle.pg_group.specs.Supersteps.{append_marks, append_others, is_stop, OnAgain, OnStop};
ghost use Rattle.pg_best.specs.declared.offers.Offer.{Offer};
ghost use Rattle.pg_relax.specs.Kept.{AreQuiet, IsFitting, IsNarrow};
ghost use Rattle.pg_relax.specs.Shown.{KeepsRelaxed, agenda_in, offered_in, state_of};

use crate::Relax;
use crate::working::{go_on, take_up};
use pg_adj::Part;
use pg_agenda::Agenda;
use pg_base::{RankNo, Ranks};
use pg_best::Offer;
use pg_group::{Narrow, Next, Outbox, Program, Vote, Worked};
use pg_label::{Label, MAX_AMOUNT, MAX_HOPS};

// Whether the offer's place holds its vertex, and its value is within the limits.
fn fits(part: &Part, offer: &Offer) -> bool
    ensures fits { result ≡ true → IsFitting part.now offer.now }
    ensures not { result ≡ false → IsFitting part.now offer.now → ⊥ }
{
    offer.place < part.count()
        && part.vertex(offer.place) == offer.to
        && offer.value.amount <= MAX_AMOUNT
        && offer.value.hops <= MAX_HOPS
}

// Whether every vote says that nothing is left.
fn are_quiet(votes: &[Vote]) -> bool
    ensures quiet { result ≡ true → AreQuiet votes.now }
    ensures not { result ≡ false → AreQuiet votes.now → ⊥ }
{
    votes.iter().all(|vote| vote.a == u64::MAX && vote.b == 0)
}

impl<L: Label + Send, A: Agenda + Send> Program for Relax<L, A> {
    ghost use Rattle.std.specs.Prelude.{◌≡◌, ◌⊎◌, true, false, None, Some, slice_get};
    ghost use Rattle.pg_relax.specs.Rounds.{count_of};
    ghost use Rattle.pg_relax.specs.Kept.{IsNarrow};
    ghost use Rattle.pg_relax.specs.Shown.{IsNewRelax, KeepsRelaxed};
    ghost use Rattle.pg_relax.specs.Items.{IsHandled, IsItem, SendsOnlyNew};
    ghost use Rattle.pg_agenda.specs.Shares.{AreNone, AreSame};

    type Body = Offer;

    ghost own = { λ r. r.part.rank };

    ghost size = { λ r. r.part.ranks };

    ghost round = { λ r. count_of r.rounds };

    ghost cast = { λ r. r.cast };

    ghost idle = { λ r. r.idle };

    ghost ended = { λ r. r.ended };

    ghost IsNew = { IsNewRelax };

    ghost Keeps = { KeepsRelaxed };

    ghost DidItem = { λ old sent new more. IsItem old.part (A.ready old.frontier.agenda) (A.pending old.frontier.agenda) (A.pending new.frontier.agenda) old.ahead new.ahead
        × SendsOnlyNew old.part sent old.offered more new.offered };

    ghost DidHandle = { λ old from offer new. IsHandled old.part offer old.frontier.table.values.items (A.pending old.frontier.agenda) new.frontier.table.values.items (A.pending new.frontier.agenda)
        × (new.offered ≡ old.offered) };

    ghost DidNothing = { λ old new. (new.frontier.table.values.items ≡ old.frontier.table.values.items) × AreSame (A.pending old.frontier.agenda) (A.pending new.frontier.agenda) × (new.offered ≡ old.offered) × (new.ahead ≡ old.ahead) × (new.part ≡ old.part) × (new.label ≡ old.label) × (new.sends ≡ old.sends) × (new.cast ≡ old.cast) × (new.ended ≡ old.ended) × (count_of new.rounds ≡ count_of old.rounds) };

    ghost IsVote = { IsNarrow };

    ghost NothingLeft = { λ r. (r.ahead ≡ None) × AreNone (A.ready r.frontier.agenda) };

    fn rank(&self) -> RankNo {
        self.part.rank()
    }

    fn ranks(&self) -> Ranks {
        self.part.ranks()
    }

    fn handle(&mut self, _from: RankNo, offer: Offer) {
        if fits(&self.part, &offer) {
            self.frontier.lower(offer.place, offer.value);
        }
    }

    fn work<O: Outbox<Offer>>(&mut self, out: &mut O) -> Worked {
        let Some(ahead) = self.ahead else {
            let taken = take_up(&self.part, &mut self.frontier);
            self.idle = taken.is_none();
            self.ahead = taken.flatten();
            return if self.idle {
                Worked::Idle
            } else {
                Worked::More
            };
        };
        let went = go_on(
            &self.part,
            &self.label,
            &mut self.frontier,
            &mut self.offered,
            ahead,
            out,
        );
        self.idle = false;
        self.ahead = went.ahead;
        self.sends |= went.sent;
        went.worked
    }

    fn vote(&mut self) -> Vote
        requires idle { ⟦<Relax<L, A> as Program>⟧.idle self.old ≡ true }
        requires uncast { ⟦<Relax<L, A> as Program>⟧.cast self.old ≡ None }
        ensures kept { (start : _) (handled sent : List (List (Body Offer))) → KeepsRelaxed start handled sent self.old
            → KeepsRelaxed start handled (append_others (⟦<Relax<L, A> as Program>⟧.own self.old) (Mark result) sent) self.new }
        ensures cast { ⟦<Relax<L, A> as Program>⟧.cast self.new ≡ Some result }
        ensures form { IsNarrow result }
        ensures same_offered { offered_in self.new ≡ offered_in self.old }
        ensures of_agenda { A.IsVote (agenda_in self.old) (state_of self.old).sends result }
        ensures same_own { ⟦<Relax<L, A> as Program>⟧.own self.new ≡ ⟦<Relax<L, A> as Program>⟧.own self.old }
        ensures same_size { ⟦<Relax<L, A> as Program>⟧.size self.new ≡ ⟦<Relax<L, A> as Program>⟧.size self.old }
        ensures same_round { ⟦<Relax<L, A> as Program>⟧.round self.new ≡ ⟦<Relax<L, A> as Program>⟧.round self.old }
        ensures same_idle { ⟦<Relax<L, A> as Program>⟧.idle self.new ≡ ⟦<Relax<L, A> as Program>⟧.idle self.old }
        ensures same_ended { ⟦<Relax<L, A> as Program>⟧.ended self.new ≡ ⟦<Relax<L, A> as Program>⟧.ended self.old }
    {
        let vote = self.frontier.agenda.vote(self.sends);
        self.cast = Some(vote);
        vote
    }

    fn round_end(&mut self, votes: &[Vote]) -> Next
        requires running { ⟦<Relax<L, A> as Program>⟧.ended self.old ≡ false }
        requires each { length votes.now ≡ ⟦<Relax<L, A> as Program>⟧.size self.old }
        requires mine { slice_get votes.now (⟦<Relax<L, A> as Program>⟧.own self.old) ≡ ⟦<Relax<L, A> as Program>⟧.cast self.old }
        ensures kept { (start : _) (handled sent : List (List (Body Offer))) → KeepsRelaxed start handled sent self.old
            → KeepsRelaxed start (append_marks (⟦<Relax<L, A> as Program>⟧.own self.old) votes.now handled) sent self.new }
        ensures stops { OnStop result (AreQuiet votes.now) }
        ensures goes_on { OnAgain result (AreQuiet votes.now → ⊥) }
        ensures same_offered { offered_in self.new ≡ offered_in self.old }
        ensures agreed { OnAgain result (A.HasBegun (agenda_in self.old) votes.now (agenda_in self.new)) }
        ensures stop { ⟦<Relax<L, A> as Program>⟧.ended self.new ≡ is_stop result }
        ensures again { OnAgain result (⟦<Relax<L, A> as Program>⟧.round self.new ≡ ⟦<Relax<L, A> as Program>⟧.round self.old + 1) }
        ensures uncast { OnAgain result (⟦<Relax<L, A> as Program>⟧.cast self.new ≡ None) }
        ensures not_idle { OnAgain result (⟦<Relax<L, A> as Program>⟧.idle self.new ≡ false) }
        ensures last_round { OnStop result (⟦<Relax<L, A> as Program>⟧.round self.new ≡ ⟦<Relax<L, A> as Program>⟧.round self.old) }
        ensures last_vote { OnStop result (⟦<Relax<L, A> as Program>⟧.cast self.new ≡ ⟦<Relax<L, A> as Program>⟧.cast self.old) }
        ensures same_own { ⟦<Relax<L, A> as Program>⟧.own self.new ≡ ⟦<Relax<L, A> as Program>⟧.own self.old }
        ensures same_size { ⟦<Relax<L, A> as Program>⟧.size self.new ≡ ⟦<Relax<L, A> as Program>⟧.size self.old }
    {
        // For the facts that it ensures.
        let _rank = self.part.rank();
        if are_quiet(votes) {
            self.ended = true;
            return Next::Stop;
        }
        self.frontier.agenda.begin(votes);
        self.rounds.count();
        self.cast = None;
        self.sends = false;
        self.idle = false;
        Next::Again
    }
}

impl<L: Label + Send, A: Agenda + Send> Narrow for Relax<L, A> {
    ghost narrow = { λ vote narrow. (narrow.c, narrow.d) };
}
