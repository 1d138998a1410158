//! Labels: where walks start, and what their arcs cost.
ghost use Rattle.std.specs.Prelude.{◌≡◌, ◌≤◌, ℕ, Option, Some, None, if◌then◌else◌, ◌==◌};

use pg_base::Vertex;

/// What relaxation computes: in which class a vertex starts, if it does, and what an arc of a weight costs.
pub trait Label {
    /// The class in which a vertex starts.
    ghost start: { Self → ℕ → Option ℕ };

    /// The cost of an arc, by its weight.
    ghost add: { Self → ℕ → ℕ };

    /// The class in which `v` starts. `None` says that no walk starts there.
    fn start(&self, v: Vertex) -> Option<u32>
        ensures { result ≡ start self.now v.0 };

    /// What an arc of weight `w` costs, at most 4,294,967,295.
    fn add(&self, w: u32) -> u64
        ensures value { result ≡ add self.now w }
        ensures at_most { add self.now w ≤ 4294967295 };

    /// No arc costs more than the greatest weight.
    ghost bounded: { (l : Self) (w : ℕ) → w ≤ 4294967295 → add l w ≤ 4294967295 };
}

/// Each arc costs 1, and the source alone starts, in class 0: for breadth-first search.
#[derive(Clone, Copy, Debug, PartialEq, Eq)]
pub struct Hops {
    /// The number of the source, from 1. A number that no vertex has starts nothing.
    pub source: u32,
}

/// Each arc costs its weight, and the source alone starts, in class 0: for least weights.
#[derive(Clone, Copy, Debug, PartialEq, Eq)]
pub struct Weight {
    /// The number of the source, from 1. A number that no vertex has starts nothing.
    pub source: u32,
}

/// Each arc costs 1, and each vertex starts in a class of its own, its number: for components.
#[derive(Clone, Copy, Debug, PartialEq, Eq)]
pub struct Root;

impl Label for Hops {
    ghost use Rattle.pg_label.specs.Values.{from_source};
    ghost use Rattle.pg_label.specs.Costs.{one_bounded};

    ghost start = { λ l. from_source l.source };

    ghost add = { λ _ _. 1 };

    ghost bounded = { λ _ w h. one_bounded w h };

    fn start(&self, v: Vertex) -> Option<u32> {
        (v.0 == self.source).then_some(0)
    }

    fn add(&self, _w: u32) -> u64 {
        1
    }
}

impl Label for Weight {
    ghost use Rattle.pg_label.specs.Values.{from_source};

    ghost start = { λ l. from_source l.source };

    ghost add = { λ _ w. w };

    ghost bounded = { λ _ w h. h };

    fn start(&self, v: Vertex) -> Option<u32> {
        (v.0 == self.source).then_some(0)
    }

    fn add(&self, w: u32) -> u64 {
        w as u64
    }
}

impl Label for Root {
    ghost use Rattle.std.specs.Prelude.{Some};
    ghost use Rattle.pg_label.specs.Costs.{one_bounded};

    ghost start = { λ _ v. Some v };

    ghost add = { λ _ _. 1 };

    ghost bounded = { λ _ w h. one_bounded w h };

    fn start(&self, v: Vertex) -> Option<u32> {
        Some(v.0)
    }

    fn add(&self, _w: u32) -> u64 {
        1
    }
}
