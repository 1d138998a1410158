//! Rank programs with a count of the items that they are sent.
ghost use Rattle.std.specs.Prelude.{◌≡◌, ◌%◌, ◌^◌};
ghost use Rattle.std.specs.List.{sum_by};
ghost use Rattle.pg_bench.specs.Counts.{items_taken};

use pg_base::{RankNo, Ranks};
use pg_group::{Next, Outbox, Program, Vote, Worked};

/// A program that counts the items that it handles, and else does what the program within does.
#[derive(Drop)]
pub struct Counted<P> {
    /// The program within.
    pub program: P,
    taken: u64,
}

impl<P> Counted<P> {
    /// A new program, before it has handled an item.
    pub fn new(program: P) -> Counted<P>
        ensures program { result.program ≡ program }
        ensures none { items_taken result ≡ 0 }
    {
        Counted { program, taken: 0 }
    }
}

/// How many items these programs have handled together, modulo 2^64.
pub fn item_count<P>(programs: &[Counted<P>]) -> u64
    ensures { result ≡ sum_by items_taken programs.now % 2 ^ 64 }
{
    let mut count = 0u64;
    for program in programs {
        count = count.wrapping_add(program.taken);
    }
    count
}

impl<P: Program> Program for Counted<P> {
    ghost use Rattle.std.specs.Prelude.{◌+◌};
    ghost use Rattle.pg_bench.specs.Counts.{AreCounted};

    type Body = P::Body;

    ghost own = { λ p. P.own p.program };

    ghost size = { λ p. P.size p.program };

    ghost round = { λ p. P.round p.program };

    ghost cast = { λ p. P.cast p.program };

    ghost idle = { λ p. P.idle p.program };

    ghost ended = { λ p. P.ended p.program };

    ghost IsNew = { λ p. P.IsNew p.program × (p.taken ≡ 0) };

    ghost Keeps = { λ start handled sent p. P.Keeps start.program handled sent p.program × AreCounted (P.size p.program) p.taken handled };

    ghost DidItem = { λ old sent new more. P.DidItem old.program sent new.program more × (new.taken ≡ old.taken) };

    ghost DidHandle = { λ old from body new. P.DidHandle old.program from body new.program × (new.taken ≡ (old.taken + 1) % 2 ^ 64) };

    ghost DidNothing = { λ old new. P.DidNothing old.program new.program × (new.taken ≡ old.taken) };

    ghost IsVote = { λ vote. P.IsVote vote };

    ghost NothingLeft = { λ p. P.NothingLeft p.program };

    fn rank(&self) -> RankNo {
        self.program.rank()
    }

    fn ranks(&self) -> Ranks {
        self.program.ranks()
    }

    fn handle(&mut self, from: RankNo, body: P::Body) {
        self.taken = self.taken.wrapping_add(1);
        self.program.handle(from, body);
    }

    fn work<O: Outbox<P::Body>>(&mut self, out: &mut O) -> Worked {
        self.program.work(out)
    }

    fn vote(&mut self) -> Vote {
        self.program.vote()
    }

    fn round_end(&mut self, votes: &[Vote]) -> Next {
        self.program.round_end(votes)
    }
}
