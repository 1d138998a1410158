//! The values of a rank's vertices, by place.
ghost use Rattle.std.specs.Prelude.{◌≡◌, ◌<◌, ◌≤◌, true, false, length, slice_set, replicate, None, IfOk, IfSome};
ghost use Rattle.pg_label.specs.Values.{HasAtMost, IsWithin};
ghost use Rattle.pg_relax.specs.Frontiers.{HasBelow};
ghost use Rattle.pg_relax.specs.Tables.{AreEntries, nowhere, shown, value_at};

use pg_label::Value;
use std::alloc::{AllocError, Global};

/// A value for each place, or none. Each takes 16 bytes.
#[derive(Drop)]
pub(crate) struct Table {
    // A place without a value holds `NOWHERE`, which is above every value.
    values: Vec<Value>,
    ghost entries: { AreEntries values.items },
}

/// What stands for no value.
pub(crate) const NOWHERE: Value = Value {
    class: u32::MAX,
    hops: u32::MAX,
    amount: u64::MAX,
};

/// The value, if it isn't the one that stands for none.
pub(crate) fn shown(value: Value) -> Option<Value>
    ensures { result ≡ shown value }
{
    (value.hops != u32::MAX).then_some(value)
}

impl Table {
    /// A table of this many places, none of which has a value.
    pub(crate) fn new(alloc: Global, count: usize) -> Result<Table, AllocError>
        ensures { IfOk result (λ table. table.values.items ≡ replicate count nowhere) }
    {
        Ok(Table {
            values: vec![in alloc; NOWHERE; count]?,
        })
    }

    /// The value at a place, if it has one.
    pub(crate) fn value(&self, place: u32) -> Option<Value>
        requires { place < length self.now.values.items }
        ensures value { result ≡ value_at self.now.values.items place }
        ensures within { IfSome result (λ x. IsWithin x) }
    {
        shown(self.values[place as usize])
    }

    /// Gives the place this value, if what it has isn't as low. Answers whether it did.
    pub(crate) fn lower(&mut self, place: u32, value: Value) -> bool
        requires place { place < length self.old.values.items }
        requires value { IsWithin value }
        ensures lowered { result ≡ true → self.new.values.items ≡ slice_set self.old.values.items place value }
        ensures below { result ≡ true → HasBelow value (value_at self.old.values.items place) }
        ensures stays { result ≡ false → self.new.values.items ≡ self.old.values.items }
        ensures low { result ≡ false → HasAtMost (value_at self.old.values.items place) value }
    {
        if value.is_below(self.values[place as usize]) {
            self.values[place as usize] = value;
            return true;
        }
        false
    }
}
