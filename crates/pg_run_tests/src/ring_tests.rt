//! Groups over ring lanes, turned by hand where nothing may wait.
use crate::tests::rolls;
use pg_base::{OpenGate, Ranks};
use pg_group::Roll;
use pg_lane::RingLanes;
use pg_run::{Machine, Turn, assemble, drive};
use std::test::Fail;

// Gives each machine one turn, in order. It is passed no token, so nothing in it can wait. Answers whether all
// have ended.
fn turn_each(machines: &mut [Machine<Roll, RingLanes>]) -> bool {
    let mut all = true;
    for i in 0..machines.len() {
        all &= machines[i].turn() == Turn::Done;
    }
    all
}

// The same again and again, at most so often, until all have ended. Answers whether they have.
fn turn_to_the_end(machines: &mut [Machine<Roll, RingLanes>], passes: u32) -> bool {
    for _ in 0..passes {
        if turn_each(machines) {
            return true;
        }
    }
    false
}

#[test]
fn two_machines_end_by_hand_and_never_wait(rt: HostRuntime) -> Result<(), Fail> {
    let ranks = Ranks::new(2).ok_or("no number of ranks")?;
    let programs = rolls(rt.alloc(), ranks, 1)?;
    let mut group = assemble::<Roll, RingLanes>(&(), rt.alloc(), programs, 1)?;
    assert!(rt; turn_to_the_end(group.machines(), 100));
    for machine in group.machines() {
        assert_eq!(rt; machine.turn(), Turn::Done);
        assert!(rt; machine.next_turn() <= 101);
    }
    Ok(())
}

#[test]
fn one_rank_ends_when_it_is_driven(rt: HostRuntime) -> Result<(), Fail> {
    let ranks = Ranks::new(1).ok_or("no number of ranks")?;
    let programs = rolls(rt.alloc(), ranks, 3)?;
    let mut group = assemble::<Roll, RingLanes>(&(), rt.alloc(), programs, 1)?;
    drive(&rt, group.machines(), &OpenGate);
    assert_eq!(rt; group.machines().len(), 1);
    for machine in group.machines() {
        let turns = machine.next_turn();
        assert_eq!(rt; machine.turn(), Turn::Done);
        assert_eq!(rt; machine.next_turn(), turns);
    }
    Ok(())
}
