//! Vertices, ranks, and how many ranks a group has.

ghost use Rattle.std.specs.Prelude.{◌≡◌, ◌≤◌, IsSome, IfSome};

use crate::MAX_RANKS;
use std::marker::Model;

/// A vertex of a graph, numbered from 1.
#[derive(Clone, Copy, Debug, PartialEq, Eq, PartialOrd, Ord)]
pub struct Vertex(pub u32);

/// A rank of a group, numbered from 0.
#[derive(Clone, Copy, Debug, PartialEq, Eq, PartialOrd, Ord)]
pub struct RankNo(pub u32);

/// How many ranks a group has: 1 to 32. A contract sees the number.
#[derive(Clone, Copy, Debug, PartialEq, Eq)]
pub struct Ranks {
    count: u32,
}

impl Model for Ranks {
    ghost use Rattle.std.specs.Prelude.{ℕ, ◌≤◌};
    ghost use Rattle.pg_base.specs.declared.TheConstants.{MAX_RANKS};

    ghost Value = { ℕ };

    ghost view = { λ r. r.count };

    ghost invariant = { λ r. (1 ≤ r.count) × (r.count ≤ MAX_RANKS) };

    ghost inverse = { λ n. record { count = n } };
}

impl Ranks {
    /// A group of `count` ranks. `None` exactly where `count` is 0 or above [`MAX_RANKS`].
    pub fn new(count: u32) -> Option<Ranks>
        ensures some { 1 ≤ count → count ≤ MAX_RANKS → IsSome result }
        ensures value { IfSome result (λ ranks. (ranks ≡ count) × (1 ≤ count) × (count ≤ MAX_RANKS)) }
    {
        if count == 0 || count > MAX_RANKS {
            return None;
        }
        Some(Ranks { count })
    }

    /// How many ranks there are, 1 to 32.
    pub fn count(&self) -> u32
        ensures value { result ≡ self.now }
        ensures at_least_one { 1 ≤ result }
        ensures at_most { result ≤ MAX_RANKS }
    {
        self.count
    }
}
