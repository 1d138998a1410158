//! How a relaxation makes the agendas of its ranks.
ghost use Rattle.std.specs.Prelude.{◌≡◌, ◌≤◌, ℕ, Bool, IfOk};
ghost use Rattle.pg_agenda.specs.declared.shares.Share.{Share};
ghost use Rattle.pg_agenda.specs.Shares.{AreNone};

use pg_agenda::{Agenda, Buckets, Levels};
use pg_base::OutOfMemory;
use std::alloc::Global;

/// New agendas, one for each rank.
pub(crate) trait Agendas<A: Agenda> {
    /// Which share takes an arc, by its weight.
    ghost takes: { Self → Share → ℕ → Bool };

    /// An agenda of the places from 0 to `count - 1`, none of them pending. `Err` says that the run is out of memory.
    fn agenda(&self, alloc: Global, count: u32) -> Result<A, OutOfMemory>
        ensures count { IfOk result (λ agenda. A.count agenda ≡ count) }
        ensures none { IfOk result (λ agenda. AreNone (A.pending agenda)) }
        ensures takes { IfOk result (λ agenda. (share : Share) (w : ℕ) → A.takes agenda share w ≡ takes self.now share w) };
}

/// Places in the order of breadth-first search.
#[derive(Clone, Copy, Debug)]
pub(crate) struct ByLevel;

impl Agendas<Levels> for ByLevel {
    ghost use Rattle.pg_agenda.specs.Shares.{takes_all};

    ghost takes = { λ _. takes_all };

    fn agenda(&self, alloc: Global, count: u32) -> Result<Levels, OutOfMemory> {
        Levels::new(alloc, count)
    }
}

/// Places in the order of delta-stepping, by buckets of the width `delta`, in units of weight.
#[derive(Clone, Copy, Debug)]
pub(crate) struct ByBucket {
    pub(crate) delta: u32,
    ghost a_width: { 1 ≤ delta },
}

impl Agendas<Buckets> for ByBucket {
    ghost use Rattle.pg_agenda.specs.BucketPhases.{takes_by};

    ghost takes = { λ a. takes_by a.delta };

    fn agenda(&self, alloc: Global, count: u32) -> Result<Buckets, OutOfMemory> {
        Buckets::new(alloc, count, self.delta)
    }
}
