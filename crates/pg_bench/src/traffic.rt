//! How fast small messages move between ranks.
ghost use Rattle.std.specs.Prelude.{◌≡◌, ◌≤◌, ◌%◌, ◌^◌, IfOk, length};
ghost use Rattle.std.specs.List.{sum_by};
ghost use Rattle.pg_group.specs.Entries.{Each};
ghost use Rattle.pg_run.specs.Driven.{AreReady};
ghost use Rattle.pg_run.specs.Machines.{machines_of, HasRoom};
ghost use Rattle.pg_bench.specs.Counts.{sent_down};

use crate::jobs::Traffic;
use pg_base::{OutOfMemory, RankNo, Ranks};
use pg_group::{Envelope, Program, Roll};
use pg_lane::{RingLanes, Settled};
use pg_run::{Group, assemble};
use std::alloc::Global;

// How many messages a lane holds.
const CAPACITY: u32 = 64;

/// A group of rolls, one for each rank, that is ready to run.
pub fn group_of_rolls(alloc: Global, job: Traffic) -> Result<Group<Roll, RingLanes>, OutOfMemory>
    ensures ready { IfOk result (λ group. AreReady (machines_of group)) }
    ensures room { IfOk result (λ group. HasRoom group) }
{
    let programs = rolls(alloc, job.ranks, job.rounds.get())?;
    assemble::<Roll, RingLanes>(&(), alloc, programs, CAPACITY)
}

// The rolls of all ranks of a group, for so many rounds.
fn rolls(alloc: Global, ranks: Ranks, rounds: u32) -> Result<Vec<Roll>, OutOfMemory>
    requires { 1 ≤ rounds }
    ensures count { IfOk result (λ rolls. length rolls.items ≡ ranks) }
    ensures new { IfOk result (λ rolls. Each (λ rank p. ⟦<Roll as Program>⟧.IsNew p) rolls.items) }
    ensures own { IfOk result (λ rolls. Each (λ rank p. ⟦<Roll as Program>⟧.own p ≡ rank) rolls.items) }
    ensures size { IfOk result (λ rolls. Each (λ rank p. ⟦<Roll as Program>⟧.size p ≡ ranks) rolls.items) }
{
    let mut rolls = Vec::new(alloc);
    for rank in 0..ranks.count() {
        let roll = Roll::new(RankNo(rank), ranks, rounds);
        let Ok(()) = rolls.push(roll) else {
            return Err(OutOfMemory);
        };
    }
    Ok(rolls)
}

/// How many messages, marks among them, were sent down these lanes, modulo 2^64.
pub fn message_count<B>(lanes: &[Settled<Envelope<B>>]) -> u64
    ensures { result ≡ sum_by sent_down lanes.now % 2 ^ 64 }
{
    let mut count = 0u64;
    for lane in lanes {
        count = count.wrapping_add(lane.pushed());
    }
    count
}
