//! Whole runs of small groups.
ghost use Rattle.std.specs.Prelude.{◌≡◌, ◌≤◌, IfOk, length};
ghost use Rattle.pg_group.specs.Entries.{Each};

use pg_base::{OpenGate, OutOfMemory, RankNo, Ranks};
use pg_group::{Program, Roll};
use pg_lane::RingLanes;
use pg_run::{Turn, assemble, drive, run};
use std::alloc::Global;
use std::test::Fail;

type Lanes = RingLanes;

// The rolls of all ranks of a group, for this many rounds.
pub(crate) fn rolls(alloc: Global, ranks: Ranks, rounds: u32) -> Result<Vec<Roll>, OutOfMemory>
    requires { 1 ≤ rounds }
    ensures count { IfOk result (λ rolls. length rolls.items ≡ ranks) }
    ensures new { IfOk result (λ rolls. Each (λ rank p. ⟦<Roll as Program>⟧.IsNew p) rolls.items) }
    ensures own { IfOk result (λ rolls. Each (λ rank p. ⟦<Roll as Program>⟧.own p ≡ rank) rolls.items) }
    ensures size { IfOk result (λ rolls. Each (λ rank p. ⟦<Roll as Program>⟧.size p ≡ ranks) rolls.items) }
{
    let mut rolls = Vec::new(alloc);
    for rank in 0..ranks.count() {
        let roll = Roll::new(RankNo(rank), ranks, rounds);
        let Ok(()) = rolls.push(roll) else {
            return Err(OutOfMemory);
        };
    }
    Ok(rolls)
}

#[test]
fn each_rank_takes_what_the_two_others_send(rt: HostRuntime) -> Result<(), Fail> {
    let ranks = Ranks::new(3).ok_or("no number of ranks")?;
    let programs = rolls(rt.alloc(), ranks, 1)?;
    let group = assemble::<Roll, Lanes>(&(), rt.alloc(), programs, 1)?;
    let finished = run(&rt, group, 1, &OpenGate);
    assert_eq!(rt; finished.programs.len(), 3);
    for program in &finished.programs {
        assert_eq!(rt; program.taken(), 2);
    }
    assert_eq!(rt; finished.lanes.len(), 6);
    for lane in &finished.lanes {
        assert_eq!(rt; lane.pushed(), 2);
        assert_eq!(rt; lane.left(), 0);
    }
    Ok(())
}

#[test]
fn one_rank_runs_without_lanes(rt: HostRuntime) -> Result<(), Fail> {
    let ranks = Ranks::new(1).ok_or("no number of ranks")?;
    let programs = rolls(rt.alloc(), ranks, 3)?;
    let group = assemble::<Roll, Lanes>(&(), rt.alloc(), programs, 1)?;
    let finished = run(&rt, group, 1, &OpenGate);
    assert_eq!(rt; finished.programs.len(), 1);
    assert_eq!(rt; finished.lanes.len(), 0);
    Ok(())
}

#[test]
fn a_machine_waits_while_its_lane_is_full(rt: HostRuntime) -> Result<(), Fail> {
    let ranks = Ranks::new(2).ok_or("no number of ranks")?;
    let programs = rolls(rt.alloc(), ranks, 1)?;
    let mut group = assemble::<Roll, Lanes>(&(), rt.alloc(), programs, 1)?;
    let first = group.machines().first_mut().ok_or("no machine")?;
    assert_eq!(rt; first.next_turn(), 1);
    assert_eq!(rt; first.turn(), Turn::Moved);
    assert_eq!(rt; first.turn(), Turn::Waiting);
    assert_eq!(rt; first.next_turn(), 3);
    drive(&rt, group.machines(), &OpenGate);
    let first = group.machines().first_mut().ok_or("no machine")?;
    assert_eq!(rt; first.turn(), Turn::Done);
    Ok(())
}
