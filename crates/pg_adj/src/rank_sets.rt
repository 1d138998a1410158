//! Sets of the ranks of a group.

ghost use Rattle.std.specs.Prelude.{◌≡◌, ◌==◌, ◌&&◌, ◌||◌, not, ℕ, ◌<◌, ◌≤◌, [], ◌∷◌, length, true, false, None, IfSome};
ghost use Rattle.pg_base.specs.declared.TheConstants.{MAX_RANKS};
ghost use Rattle.pg_adj.specs.RankSets.{has, members};

use pg_base::RankNo;

/// A set of ranks: bit r says whether the rank r is in it. A group has at most 32 ranks, as many as there are bits.
#[derive(Clone, Copy)]
pub struct RankSet(u32);

impl RankSet {
    /// The set without any rank.
    pub fn new() -> RankSet
        ensures { (r : ℕ) → has result r ≡ false }
    {
        RankSet(0)
    }

    /// How many ranks there are in the set.
    pub fn len(self) -> u32
        ensures value { result ≡ length (members self) }
        ensures most { result ≤ MAX_RANKS }
    {
        self.0.count_ones()
    }

    /// Puts the rank into the set.
    pub fn insert(&mut self, rank: RankNo)
        requires { rank.0 < MAX_RANKS }
        ensures { (r : ℕ) → has self.new r ≡ (has self.old r || r == rank.0) }
    {
        self.0 |= 1 << rank.0;
    }

    /// Takes the lowest rank out of the set. `None` where there is no rank in it.
    pub fn pop_first(&mut self) -> Option<RankNo>
        ensures lowest { IfSome result (λ rank. members self.old ≡ rank.0 ∷ members self.new) }
        ensures taken { IfSome result (λ rank. has self.old rank.0 ≡ true) }
        ensures others { IfSome result (λ rank. (r : ℕ) → has self.new r ≡ (has self.old r && not (r == rank.0))) }
        ensures no_members { result ≡ None → members self.old ≡ [] }
        ensures has_none { result ≡ None → (r : ℕ) → has self.old r ≡ false }
    {
        if self.0 == 0 {
            return None;
        }
        let lowest = self.0.trailing_zeros();
        self.0 &= !(1 << lowest);
        Some(RankNo(lowest))
    }
}
