//! The distribution in blocks, which needs no table.

ghost use Rattle.std.specs.Prelude.{◌≡◌, ℕ, ◌+◌, ◌*◌, ◌/◌, ◌%◌, ◌<◌, ◌≤◌};
ghost use Rattle.pg_base.specs.declared.TheConstants.{MAX_VERTICES};
ghost use Rattle.pg_dist.specs.Blocks.{count_of, first_of};

use crate::Distribution;
use pg_base::{MAX_VERTICES, RankNo, Ranks, Vertex};

/// A distribution in blocks: the ranks' vertices follow one another in ascending order, and the first
/// n mod p of the p ranks have one vertex more than the others. Every answer takes constant time, and there
/// is no table.
#[derive(Clone, Copy, Debug)]
pub struct Block {
    n: u32,
    ranks: Ranks,
    share: u32,
    extra: u32,
    ghost within: { n ≤ MAX_VERTICES },
    ghost split: { n ≡ ranks * share + extra },
    ghost extra_below: { extra < ranks },
}

impl Block {
    ghost use Rattle.pg_dist.specs.Blocks.{in_long};

    /// The blocks of `n` vertices over these ranks. Allocates nothing.
    pub fn new(n: u32, ranks: Ranks) -> Block
        requires { n ≤ MAX_VERTICES }
        ensures vertices { (⟦<Block as Distribution>⟧.sharing result).n ≡ n }
        ensures ranks { (⟦<Block as Distribution>⟧.sharing result).ranks ≡ ranks }
        ensures counts { (r : ℕ) → r < ranks
            → (⟦<Block as Distribution>⟧.sharing result).count r ≡ count_of (n / ranks) (n % ranks) r }
        ensures blocks { (r i : ℕ) → r < ranks → i < count_of (n / ranks) (n % ranks) r
            → (⟦<Block as Distribution>⟧.sharing result).global r i ≡ first_of (n / ranks) (n % ranks) r + i }
    {
        let ranks_count = ranks.count();
        Block {
            n,
            ranks,
            share: n / ranks_count,
            extra: n % ranks_count,
        }
    }

    // How many vertices the ranks with one more have together. These are the first vertices.
    fn in_long(&self) -> u32
        ensures { result ≡ in_long self.now.share self.now.extra }
    {
        self.extra * (self.share + 1)
    }
}

impl Distribution for Block {
    ghost use Rattle.pg_dist.specs.Blocks.{owner_of, place_of};
    ghost use Rattle.pg_dist.specs.BlockLaws.{block_laws};

    ghost sharing = { λ b. record {
      n = b.n;
      ranks = b.ranks;
      owner = owner_of b.share b.extra;
      local = place_of b.share b.extra;
      count = count_of b.share b.extra;
      global = λ r i. first_of b.share b.extra r + i;
    } };

    fn n(&self) -> u32 {
        self.n
    }

    fn ranks(&self) -> Ranks {
        self.ranks
    }

    fn owner(&self, v: Vertex) -> RankNo {
        let place = v.0 - 1;
        let in_long = self.in_long();
        if place < in_long {
            RankNo(place / (self.share + 1))
        } else {
            RankNo(self.extra + (place - in_long) / self.share)
        }
    }

    fn local(&self, v: Vertex) -> u32 {
        let place = v.0 - 1;
        let in_long = self.in_long();
        if place < in_long {
            place % (self.share + 1)
        } else {
            (place - in_long) % self.share
        }
    }

    fn count(&self, r: RankNo) -> u32 {
        if r.0 < self.extra {
            self.share + 1
        } else {
            self.share
        }
    }

    fn global(&self, r: RankNo, i: u32) -> Vertex {
        Vertex(r.0 * self.share + r.0.min(self.extra) + 1 + i)
    }

    ghost laws = { λ b. block_laws b.n b.ranks b.share b.extra b.within b.split b.extra_below };
}
