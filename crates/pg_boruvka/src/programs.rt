//! Borůvka's method as a rank program.
ghost use Rattle.std.specs.Prelude.{◌≡◌, ◌≢◌, ℕ, ◌+◌, ◌<◌, ◌≤◌, None, true, false, length, slice_get};
ghost use Rattle.pg_group.specs.declared.programs.Next.TheVariants.{Again};

use crate::dense::{Dense, Stage};
use crate::{Hook, Message, Piece};
use pg_base::{RankNo, Ranks};
use pg_group::{Narrow, Next, Outbox, Program, Vote, Worked};

const ZEROS: Vote = Vote {
    a: 0,
    b: 0,
    c: 0,
    d: 0,
};

impl Dense {
    ghost use Rattle.pg_boruvka.specs.Hooks.{is_within};
    ghost use Rattle.pg_boruvka.specs.Known.{part_in, view_of, known_in, with_winners, with_hooks, with_known, in_stage};
    ghost use Rattle.pg_boruvka.specs.Calls.{AreMerged, IsTaken};

    // Lowers the winners that the piece speaks of in this round: those of own labels first, then those of the others.
    fn merge(&mut self, piece: &Piece)
        ensures merged { AreMerged (view_of self.old) piece.now self.new.tables.winners.items }
        ensures rest { view_of self.new ≡ with_known (view_of self.old) (with_winners (known_in self.old.tables) self.new.tables.winners.items) }
        ensures same_idle { self.new.idle ≡ self.old.idle }
    {
        let (first, past) = self.own_labels();
        let end = self.n + 1;
        match self.stage {
            Stage::Up => self.tables.lower(piece, first, past),
            Stage::Down => {
                self.tables.lower(piece, 1, first);
                self.tables.lower(piece, past, end);
            }
            Stage::Hook => {}
        }
    }

    // Whether the hook's numbers are those of labels and an edge.
    fn are_within(&self, hook: &Hook) -> bool
        ensures { result ≡ is_within (part_in self.now) hook.now }
    {
        let labels = 1..self.n + 1;
        labels.contains(&hook.source)
            && labels.contains(&hook.target)
            && (hook.edge as usize) < self.tables.chosen.len()
    }

    // Notes a hook whose numbers are in range.
    fn note(&mut self, hook: &Hook)
        ensures taken { IsTaken (view_of self.old) hook.now self.new.tables.hooks.targets.items self.new.tables.hooks.edges.items }
        ensures rest { view_of self.new ≡ with_known (view_of self.old)
            (with_hooks (known_in self.old.tables) self.new.tables.hooks.targets.items self.new.tables.hooks.edges.items) }
        ensures same_idle { self.new.idle ≡ self.old.idle }
    {
        if self.stage == Stage::Hook && self.are_within(hook) {
            self.tables.note(hook);
        }
    }

    // Begins a round.
    fn begin_round(&mut self, stage: Stage) -> Next
        ensures again { result ≡ Again }
        ensures begun { view_of self.new ≡ in_stage (view_of self.old) stage }
        ensures idle { self.new.idle ≡ false }
    {
        self.stage = stage;
        self.to = 0;
        self.at = 0;
        self.cast = None;
        self.idle = false;
        Next::Again
    }
}

impl Program for Dense {
    ghost use Rattle.std.specs.Prelude.{◌↔◌, List};
    ghost use Rattle.pg_group.specs.declared.messages.Body.{Body};
    ghost use Rattle.pg_group.specs.Rolls.{IsZeros};
    ghost use Rattle.pg_group.specs.Supersteps.{append_marks, is_stop, OnAgain, OnStop};
    ghost use Rattle.pg_boruvka.specs.declared.messages.Message.{Message};
    ghost use Rattle.pg_boruvka.specs.declared.dense.Dense.{Dense};
    ghost use Rattle.pg_boruvka.specs.Known.{part_in, view_of, round_of};
    ghost use Rattle.pg_boruvka.specs.Shown.{IsNewDense, KeepsDense};
    ghost use Rattle.pg_boruvka.specs.Calls.{SentOne, TookIn, DidNoMessage, IsAllSent, IsOver};

    type Body = Message;

    ghost own = { λ d. (part_in d).rank };

    ghost size = { λ d. (part_in d).ranks };

    ghost round = { λ d. round_of (view_of d) };

    ghost cast = { λ d. d.cast };

    ghost idle = { λ d. d.idle };

    ghost ended = { λ d. d.ended };

    ghost IsNew = { IsNewDense };

    ghost Keeps = { KeepsDense };

    ghost DidItem = { λ old sent new more. SentOne (view_of old) sent (view_of new) more };

    ghost DidHandle = { λ old from m new. TookIn (view_of old) from m (view_of new) };

    ghost DidNothing = { λ old new. DidNoMessage (view_of old) (view_of new) };

    ghost IsVote = { IsZeros };

    ghost NothingLeft = { λ d. IsAllSent (view_of d) };

    fn rank(&self) -> RankNo {
        self.rank
    }

    fn ranks(&self) -> Ranks {
        self.ranks
    }

    fn handle(&mut self, _from: RankNo, message: Message) {
        match message {
            Message::Piece(piece) => self.merge(&piece),
            Message::Hook(hook) => self.note(&hook),
        }
    }

    fn work<O: Outbox<Message>>(&mut self, out: &mut O) -> Worked {
        let Some((to, message)) = self.seek() else {
            self.idle = true;
            return Worked::Idle;
        };
        self.idle = false;
        match out.send(to, message) {
            Ok(()) => {
                self.at += 1;
                Worked::More
            }
            Err(_) => Worked::Blocked { to },
        }
    }

    fn vote(&mut self) -> Vote {
        self.cast = Some(ZEROS);
        ZEROS
    }

    /// Ends the round. `Stop` comes exactly with the second round of a phase in which no label has a winner.
    fn round_end(&mut self, _votes: &[Vote]) -> Next
        requires running { ⟦<Dense as Program>⟧.ended self.old ≡ false }
        requires each { length _votes.now ≡ (part_in self.old).ranks }
        requires mine { slice_get _votes.now (part_in self.old).rank ≡ ⟦<Dense as Program>⟧.cast self.old }
        ensures kept { (start : Dense) (handled sent : List (List (Body Message))) → KeepsDense start handled sent self.old
            → KeepsDense start (append_marks (part_in self.old).rank _votes.now handled) sent self.new }
        ensures stops { (is_stop result ≡ true) ↔ IsOver (view_of self.old) }
        ensures stop { ⟦<Dense as Program>⟧.ended self.new ≡ is_stop result }
        ensures again { OnAgain result (round_of (view_of self.new) ≡ round_of (view_of self.old) + 1) }
        ensures uncast { OnAgain result (⟦<Dense as Program>⟧.cast self.new ≡ None) }
        ensures not_idle { OnAgain result (⟦<Dense as Program>⟧.idle self.new ≡ false) }
        ensures last_round { OnStop result (round_of (view_of self.new) ≡ round_of (view_of self.old)) }
        ensures last_vote { OnStop result (⟦<Dense as Program>⟧.cast self.new ≡ ⟦<Dense as Program>⟧.cast self.old) }
        ensures same_own { (part_in self.new).rank ≡ (part_in self.old).rank }
        ensures same_size { (part_in self.new).ranks ≡ (part_in self.old).ranks }
    {
        match self.stage {
            Stage::Up => self.begin_round(Stage::Down),
            Stage::Down => {
                if self.tables.is_over() {
                    self.ended = true;
                    return Next::Stop;
                }
                self.tables.note_own();
                self.begin_round(Stage::Hook)
            }
            Stage::Hook => {
                self.tables.end_phase();
                let (first, past) = self.own_labels();
                self.tables.begin_phase(first, past);
                self.phases.count();
                self.begin_round(Stage::Up)
            }
        }
    }
}

impl Narrow for Dense {
    ghost narrow = { λ vote zeros. (zeros.c, zeros.d) };
}
