//! Values, their order, and how an arc extends them.
ghost use Rattle.std.specs.Prelude.{◌≡◌, ◌↔◌, ◌≤◌, IsSome, IfSome, true, false};
ghost use Rattle.std.proofs.Common.{rules};
ghost use Rattle.std.specs.Cmp.{partial_order_from_own_ties};
ghost use Rattle.std.specs.Cmp.Rules.{comparing};
ghost use Rattle.std.specs.Ordering.{as_partial_cmp};
ghost use Rattle.pg_label.specs.Order.{value_cmp};
ghost use Rattle.pg_label.specs.Values.{AtMost, Below, IsWithin, extended};

use std::cmp::Ordering;

/// The greatest amount of a value, 2^60.
pub const MAX_AMOUNT: u64 = 1_152_921_504_606_846_976;

/// The greatest number of hops of a value, which is the greatest number of vertices of a graph.
pub const MAX_HOPS: u32 = 1_048_576;

/// What a walk gives its end: the class of its start, the sum of its costs, and the number of its arcs. Values are
/// ordered by class, then amount, then hops. The fields stand so that a value takes 16 bytes.
#[derive(Clone, Copy, Debug, PartialEq, Eq)]
pub struct Value {
    /// The class in which the walk's first vertex starts.
    pub class: u32,
    /// How many arcs the walk has.
    pub hops: u32,
    /// What its arcs cost together.
    pub amount: u64,
}

impl Value {
    /// Whether this value comes before the other one, by class, then amount, then hops.
    pub const fn is_below(self, other: Value) -> bool
        ensures below { result ≡ true → Below self other }
        ensures most { result ≡ false → AtMost other self }
    {
        if self.class != other.class {
            return self.class < other.class;
        }
        if self.amount != other.amount {
            return self.amount < other.amount;
        }
        self.hops < other.hops
    }
}

impl Ord for Value {
    ghost cmp = { value_cmp };

    ghost total = { Prim.search (comparing, rules) depth 9 };

    ghost matches_partial_cmp = { Prim.search (comparing, rules) depth 9 };

    ghost matches_eq = { Prim.search (comparing, rules) depth 9 };

    fn cmp(&self, other: &Value) -> Ordering {
        self.class
            .cmp(&other.class)
            .then(self.amount.cmp(&other.amount))
            .then(self.hops.cmp(&other.hops))
    }
}

impl PartialOrd for Value {
    ghost partial_cmp = { as_partial_cmp value_cmp };

    ghost laws = { partial_order_from_own_ties (Prim.search (comparing, rules) depth 9) (Prim.search (comparing, rules) depth 9) };

    fn partial_cmp(&self, other: &Value) -> Option<Ordering> {
        Some(self.cmp(other))
    }
}

/// The value of a walk that goes on by an arc of cost `a`: the class is the same, the amount is larger by `a`, and
/// there is one hop more. `None` comes exactly where the amount would be above [`MAX_AMOUNT`] or the hops above
/// [`MAX_HOPS`].
pub fn extend(x: Value, a: u64) -> Option<Value>
    requires within { IsWithin x }
    requires cost { a ≤ 4294967295 }
    ensures exists { IsSome result ↔ IsWithin (extended x a) }
    ensures value { IfSome result (λ y. y ≡ extended x a) }
{
    let amount = x.amount + a;
    if amount > MAX_AMOUNT || x.hops >= MAX_HOPS {
        return None;
    }
    Some(Value {
        class: x.class,
        hops: x.hops + 1,
        amount,
    })
}
