//! The synchronize of the degrees as a rank program.

use crate::NeighbourDegrees;
use crate::programs::ZEROS;
use pg_base::{RankNo, Ranks};
use pg_cells::CellBody;
use pg_group::{Narrow, Next, Outbox, Program, Vote, Worked};

impl Program for NeighbourDegrees {
    ghost use Rattle.std.specs.Prelude.{◌≡◌, max};
    ghost use Rattle.pg_group.specs.Rolls.{IsZeros};
    ghost use Rattle.pg_cells.specs.Shown.{state_of};
    ghost use Rattle.pg_cells.specs.States.{NothingLeft};
    ghost use Rattle.pg_uses.specs.DegreeMaps.{round_in};
    ghost use Rattle.pg_uses.specs.Synchronizing.{HandlesBody, IsNewMap, KeepsMap, SendsBody};

    type Body = CellBody;

    ghost own = { λ p. p.part.rank };

    ghost size = { λ p. p.part.ranks };

    ghost round = { λ p. round_in (state_of p.cells).phase };

    ghost cast = { λ p. p.cast };

    ghost idle = { λ p. p.idle };

    ghost ended = { λ p. p.ended };

    ghost IsNew = { IsNewMap };

    ghost Keeps = { KeepsMap };

    ghost DidItem = { SendsBody };

    ghost DidHandle = { HandlesBody };

    ghost DidNothing = { λ old new. (new.part ≡ old.part) × (new.cells ≡ old.cells) };

    ghost IsVote = { IsZeros };

    ghost NothingLeft = { λ p. NothingLeft (state_of p.cells) };

    fn rank(&self) -> RankNo {
        self.part.rank()
    }

    fn ranks(&self) -> Ranks {
        self.part.ranks()
    }

    fn handle(&mut self, from: RankNo, body: CellBody) {
        // What comes after the end is no part of the synchronize.
        if !self.ended {
            self.cells.handle(from, body);
        }
    }

    fn work<O: Outbox<CellBody>>(&mut self, out: &mut O) -> Worked {
        let worked = self.cells.work(out);
        match worked {
            Worked::More => self.idle = false,
            Worked::Idle => self.idle = true,
            Worked::Blocked { .. } => self.idle = false,
        }
        worked
    }

    fn vote(&mut self) -> Vote {
        self.cast = Some(ZEROS);
        ZEROS
    }

    fn round_end(&mut self, _votes: &[Vote]) -> Next {
        // For the facts that it ensures.
        let _rank = self.part.rank();
        self.ended = self.cells.end_round();
        if self.ended {
            return Next::Stop;
        }
        self.idle = false;
        self.cast = None;
        Next::Again
    }
}

impl Narrow for NeighbourDegrees {
    ghost narrow = { λ vote zeros. (zeros.c, zeros.d) };
}
