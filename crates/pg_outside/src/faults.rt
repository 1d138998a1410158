//! How faults are counted.
ghost use Rattle.std.specs.Prelude.{◌≡◌, ◌≤◌};
ghost use Rattle.pg_outside.specs.Counts.{counted};
ghost use Rattle.pg_outside.specs.Faults.{Rose};

use crate::Failed;

/// Counts one fault, and answers `Failed`. The count stands still at 2^64 - 1.
pub(crate) fn fault(faults: &mut u64) -> Failed
    ensures count { faults.new ≡ counted faults.old }
    ensures later { faults.old ≤ faults.new }
    ensures rose { Rose faults.old faults.new }
{
    *faults = faults.saturating_add(1);
    Failed
}
