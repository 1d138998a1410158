//! What a rank knows of the degrees of a graph.
ghost use Rattle.std.specs.Prelude.{◌≡◌, ◌⊎◌, ◌+◌, ◌<◌, ℕ, true, Option, None, IfSome, is_some};
ghost use Rattle.pg_base.specs.declared.TheConstants.{MAX_RANKS};
ghost use Rattle.pg_group.specs.Ranked.{IsOther};
ghost use Rattle.pg_uses.specs.Degrees.{IsOwnDegree};
ghost use Rattle.pg_uses.specs.Greatest.{IsGreatest};

use pg_adj::Part;
use pg_base::{RankNo, Ranks};
use pg_group::Vote;

/// The program of one rank that finds the greatest degree of a divided graph. In its one round it sends the greatest
/// degree among its own vertices to every other rank, and keeps the greatest of this number and those that it gets.
#[derive(Debug, Drop)]
pub struct Degrees {
    pub(crate) rank: RankNo,
    pub(crate) ranks: Ranks,
    // The greatest degree among the own vertices, and the greatest that is known.
    pub(crate) own: u64,
    pub(crate) greatest: u64,
    // The own one was sent to every other rank below `next`.
    pub(crate) next: u32,
    pub(crate) idle: bool,
    pub(crate) cast: Option<Vote>,
    pub(crate) ended: bool,
    ghost in_group: { rank.0 < ranks },
    ghost told_all: { idle ≡ true → (to : ℕ) → IsOther rank.0 ranks to → to < next },
    ghost voted: { is_some cast ≡ true → idle ≡ true },
    ghost over: { ended ≡ true → is_some cast ≡ true },
}

impl Degrees {
    ghost use Rattle.pg_uses.specs.Kept.{HasToldAll, IsProgramOf, greatest_in};

    /// The program of the rank that holds this part, before it has sent anything. Takes time linear in the part's
    /// vertices, and allocates nothing.
    pub fn new(part: &Part) -> Degrees
        ensures { IsProgramOf part.now result }
    {
        let own = own_degree(part);
        Degrees {
            rank: part.rank(),
            ranks: part.ranks(),
            own,
            greatest: own,
            next: 0,
            idle: false,
            cast: None,
            ended: false,
        }
    }

    /// The greatest degree that the rank knows: of a new program that of its own vertices, 0 where it has none, and
    /// after a whole run that of the graph ([`crate::run_degrees`]).
    pub fn greatest(&self) -> u64
        ensures { result ≡ greatest_in self.now }
    {
        self.greatest
    }

    // The next rank that the own number is to be sent to.
    pub(crate) fn receiver(&self) -> Option<RankNo>
        ensures other { IfSome result (λ to. IsOther self.now.rank.0 self.now.ranks to.0) }
        ensures ascending { IfSome result (λ to. (self.now.next ≡ to.0) ⊎ ((self.now.next ≡ self.now.rank.0) × (to.0 ≡ self.now.next + 1))) }
        ensures few { IfSome result (λ to. to.0 < MAX_RANKS) }
        ensures told_all { result ≡ None → HasToldAll self.now }
    {
        let ranks = self.ranks.count();
        let to = if self.next == self.rank.0 {
            self.next + 1
        } else {
            self.next
        };
        (to < ranks).then_some(RankNo(to))
    }
}

// The greatest degree among the own vertices of a part, 0 where it has none.
fn own_degree(part: &Part) -> u64
    ensures { IsGreatest (IsOwnDegree part.now) result }
{
    let mut greatest = 0;
    for place in 0..part.count() {
        greatest = greatest.max(part.arcs(place).len() as u64);
    }
    greatest
}
