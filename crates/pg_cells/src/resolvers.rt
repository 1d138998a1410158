//! Resolvers: what a cell holds at first, and what a further value makes of it.

ghost use Rattle.std.specs.Prelude.{◌≡◌, ℕ, min, max};

use pg_base::Vertex;

/// What a cell holds at first, and what becomes of it when a further value is put to it.
pub trait Resolver: Send + Drop {
    /// The start value of a vertex.
    ghost start: { Self → ℕ → ℕ };

    /// An old and a new value joined.
    ghost join: { Self → ℕ → ℕ → ℕ };

    /// What the cell of `v` holds at first.
    fn start(&self, v: Vertex) -> u64
        ensures { result ≡ start self.now v.0 };

    /// What a cell with the value `old` holds once `new` is put to it.
    fn join(&self, old: u64, new: u64) -> u64
        ensures { result ≡ join self.now old new };

    /// Joining is associative.
    ghost associative: { (r : Self) (a b c : ℕ) → join r (join r a b) c ≡ join r a (join r b c) };
}

/// A resolver with which neither the order of the values nor how often one comes makes a difference.
pub trait Semilattice: Resolver {
    /// Joining is commutative.
    ghost commutative: { (r : Self) (a b : ℕ) → Self.join r a b ≡ Self.join r b a };

    /// Joining a value to itself changes nothing.
    ghost idempotent: { (r : Self) (a : ℕ) → Self.join r a a ≡ a };
}

/// The least value wins. A cell starts at the greatest `u64`.
#[derive(Clone, Copy, Debug, PartialEq, Eq)]
pub struct LeastWins;

/// The greatest value wins. A cell starts at 0.
#[derive(Clone, Copy, Debug, PartialEq, Eq)]
pub struct GreatestWins;

/// The last value wins.
#[derive(Clone, Copy, Debug, PartialEq, Eq)]
pub struct LastWins {
    /// What each cell holds at first.
    pub start: u64,
}

impl Resolver for LeastWins {
    ghost use Rattle.pg_cells.specs.Joins.{min-assoc};

    ghost start = { λ _ _. 18_446_744_073_709_551_615 };

    ghost join = { λ _ old new. min old new };

    ghost associative = { λ _ a b c. min-assoc a b c };

    fn start(&self, _v: Vertex) -> u64 {
        u64::MAX
    }

    fn join(&self, old: u64, new: u64) -> u64 {
        old.min(new)
    }
}

impl Resolver for GreatestWins {
    ghost use Rattle.pg_cells.specs.Joins.{max-assoc};

    ghost start = { λ _ _. 0 };

    ghost join = { λ _ old new. max old new };

    ghost associative = { λ _ a b c. max-assoc a b c };

    fn start(&self, _v: Vertex) -> u64 {
        0
    }

    fn join(&self, old: u64, new: u64) -> u64 {
        old.max(new)
    }
}

impl Resolver for LastWins {
    ghost use Rattle.std.specs.Prelude.{refl};

    ghost start = { λ r _. r.start };

    ghost join = { λ _ _ new. new };

    ghost associative = { λ _ _ _ _. refl };

    fn start(&self, _v: Vertex) -> u64 {
        self.start
    }

    fn join(&self, _old: u64, new: u64) -> u64 {
        new
    }
}

impl Semilattice for LeastWins {
    ghost use Rattle.pg_cells.specs.Joins.{min-comm, min-idem};

    ghost commutative = { λ _ a b. min-comm a b };

    ghost idempotent = { λ _ a. min-idem a };
}

impl Semilattice for GreatestWins {
    ghost use Rattle.pg_cells.specs.Joins.{max-comm, max-idem};

    ghost commutative = { λ _ a b. max-comm a b };

    ghost idempotent = { λ _ a. max-idem a };
}
