//! The search for the greatest degree as a rank program.
ghost use Rattle.std.specs.Prelude.{◌≡◌};

use crate::Degrees;
use pg_base::{RankNo, Ranks};
use pg_group::{Narrow, Next, Outbox, Program, Vote, Worked};

pub(crate) const ZEROS: Vote = Vote {
    a: 0,
    b: 0,
    c: 0,
    d: 0,
};

impl Program for Degrees {
    ghost use Rattle.std.specs.Prelude.{◌≡◌, max};
    ghost use Rattle.pg_group.specs.Rolls.{IsZeros};
    ghost use Rattle.pg_uses.specs.Kept.{HasToldAll, IsNewDegrees, KeepsDegrees, TellsOne};

    type Body = u64;

    ghost own = { λ p. p.rank.0 };

    ghost size = { λ p. p.ranks };

    ghost round = { λ p. 0 };

    ghost cast = { λ p. p.cast };

    ghost idle = { λ p. p.idle };

    ghost ended = { λ p. p.ended };

    ghost IsNew = { IsNewDegrees };

    ghost Keeps = { KeepsDegrees };

    ghost DidItem = { λ old sent new more. TellsOne old sent more × (new.greatest ≡ old.greatest) × (new.own ≡ old.own) };

    ghost DidHandle = { λ old from body new. (new.greatest ≡ max old.greatest body) × (new.own ≡ old.own) × (new.next ≡ old.next) };

    ghost DidNothing = { λ old new. (new.greatest ≡ old.greatest) × (new.own ≡ old.own) × (new.next ≡ old.next) };

    ghost IsVote = { IsZeros };

    ghost NothingLeft = { HasToldAll };

    fn rank(&self) -> RankNo {
        self.rank
    }

    fn ranks(&self) -> Ranks {
        self.ranks
    }

    fn handle(&mut self, _from: RankNo, body: u64) {
        self.greatest = self.greatest.max(body);
    }

    fn work<O: Outbox<u64>>(&mut self, out: &mut O) -> Worked {
        match self.receiver() {
            None => {
                self.idle = true;
                Worked::Idle
            }
            Some(to) => {
                self.idle = false;
                match out.send(to, self.own) {
                    Ok(()) => {
                        self.next = to.0 + 1;
                        Worked::More
                    }
                    Err(_) => Worked::Blocked { to },
                }
            }
        }
    }

    fn vote(&mut self) -> Vote {
        self.cast = Some(ZEROS);
        ZEROS
    }

    fn round_end(&mut self, _votes: &[Vote]) -> Next {
        self.ended = true;
        Next::Stop
    }
}

impl Narrow for Degrees {
    ghost narrow = { λ vote zeros. (zeros.c, zeros.d) };
}
