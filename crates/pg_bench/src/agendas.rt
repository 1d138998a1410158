//! How the agendas of a relaxation's ranks are made.
ghost use Rattle.std.specs.Prelude.{◌≡◌, ◌≤◌, IfOk};
ghost use Rattle.pg_agenda.specs.Shares.{AreNone};

use pg_agenda::{Agenda, Buckets, Levels};
use pg_base::OutOfMemory;
use std::alloc::Global;

/// New agendas, one for each rank.
pub trait Agendas<A: Agenda> {
    /// An agenda of this many places, none of them pending.
    fn agenda(&self, alloc: Global, count: u32) -> Result<A, OutOfMemory>
        ensures count { IfOk result (λ agenda. A.count agenda ≡ count) }
        ensures none { IfOk result (λ agenda. AreNone (A.pending agenda)) };
}

/// Places in the order of breadth-first search.
#[derive(Clone, Copy, Debug)]
pub struct ByLevel;

impl Agendas<Levels> for ByLevel {
    fn agenda(&self, alloc: Global, count: u32) -> Result<Levels, OutOfMemory> {
        Levels::new(alloc, count)
    }
}

/// Places in the order of delta-stepping, by buckets of this width.
#[derive(Clone, Copy, Debug)]
pub struct ByBucket {
    /// The width of a bucket, in units of weight.
    pub delta: u32,
    ghost a_width: { 1 ≤ delta },
}

impl Agendas<Buckets> for ByBucket {
    fn agenda(&self, alloc: Global, count: u32) -> Result<Buckets, OutOfMemory> {
        Buckets::new(alloc, count, self.delta)
    }
}
