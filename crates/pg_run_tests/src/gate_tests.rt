//! Which turns pass the gate, the greatest group, and what one turn does.
ghost use Rattle.std.specs.Prelude.{◌<◌, length};
ghost use Rattle.pg_run.specs.Driven.{HaveFollowed};
ghost use Rattle.pg_run.specs.Machines.{machines_of, HasRoom};

use crate::tests::rolls;
use pg_base::{Gate, OpenGate, RankNo, Ranks};
use pg_group::{Mailbox, Program, Roll};
use pg_lane::RingLanes;
use pg_run::{Assembly, Runner, Turn, assemble, drive, run};
use std::sync::atomic::{AtomicU64, Ordering};
use std::test::Fail;

// Notes the last turn with which each of two ranks passed, and a pass that was neither its rank's next turn nor,
// as for a machine that has ended, the same one again.
#[derive(Drop)]
struct NotesTurns {
    first: AtomicU64,
    second: AtomicU64,
    wrong: AtomicU64,
}

impl NotesTurns {
    fn last_turn(&self, rank: RankNo) -> &AtomicU64 {
        if rank.0 == 0 {
            &self.first
        } else {
            &self.second
        }
    }
}

impl Gate for NotesTurns {
    fn pass(&self, rank: RankNo, turn: u64) {
        let last = self.last_turn(rank);
        let before = last.load(Ordering::SeqCst);
        if turn == before.wrapping_add(1) {
            last.store(turn, Ordering::SeqCst);
        } else if turn != before {
            self.wrong.store(turn, Ordering::SeqCst);
        }
        if rank.0 > 1 {
            self.wrong.store(turn, Ordering::SeqCst);
        }
    }
}

#[test]
fn every_turn_of_every_rank_passes_the_gate_in_order(rt: HostRuntime) -> Result<(), Fail> {
    let gate = NotesTurns {
        first: AtomicU64::new(0),
        second: AtomicU64::new(0),
        wrong: AtomicU64::new(0),
    };
    let ranks = Ranks::new(2).ok_or("no number of ranks")?;
    let programs = rolls(rt.alloc(), ranks, 3)?;
    let mut group = assemble::<Roll, RingLanes>(&(), rt.alloc(), programs, 1)?;
    drive(&rt, group.machines(), &gate);
    assert_eq!(rt; gate.wrong.load(Ordering::SeqCst), 0);
    for machine in group.machines() {
        let passed = gate.last_turn(machine.rank()).load(Ordering::SeqCst);
        let next = machine.next_turn();
        assert!(rt; next > 3);
        assert!(rt; passed == next || passed.wrapping_add(1) == next);
    }
    Ok(())
}

#[test]
fn the_greatest_group_is_assembled_and_run(rt: HostRuntime) -> Result<(), Fail> {
    let ranks = Ranks::new(32).ok_or("no number of ranks")?;
    let programs = rolls(rt.alloc(), ranks, 1)?;
    let group = assemble::<Roll, RingLanes>(&(), rt.alloc(), programs, 1024)?;
    let finished = run(&rt, group, 1, &OpenGate);
    assert_eq!(rt; finished.programs.len(), 32);
    assert_eq!(rt; finished.lanes.len(), 992);
    for program in &finished.programs {
        assert_eq!(rt; program.taken(), 31);
    }
    Ok(())
}

// It ends only if this one turn polls every rank for more than one message, works though something came, votes, and
// sends its marks.
#[test]
fn a_rank_to_which_all_has_come_ends_in_one_turn(rt: HostRuntime) -> Result<(), Fail> {
    let ranks = Ranks::new(3).ok_or("no number of ranks")?;
    let programs = rolls(rt.alloc(), ranks, 1)?;
    let mut group = assemble::<Roll, RingLanes>(&(), rt.alloc(), programs, 2)?;
    let machines = group.machines();
    assert_eq!(rt; machines.len(), 3);
    assert_eq!(rt; machines[1].turn(), Turn::Moved);
    assert_eq!(rt; machines[2].turn(), Turn::Moved);
    assert_eq!(rt; machines[0].turn(), Turn::Done);
    let first = group.machines().first_mut().ok_or("no machine")?;
    assert_eq!(rt; first.program().taken(), 2);
    Ok(())
}

// Gives the machine at one place a turn.
fn turn_one<P: Program, M: Mailbox<P::Body>>(machines: &mut [Runner<P, M>], rank: usize) -> Turn
    requires { rank < length machines.old }
    ensures follow { HaveFollowed machines.old machines.new }
{
    machines[rank].turn()
}

// Gives the machine of one rank of a group a turn.
fn turn_in<P: Program, M: Mailbox<P::Body>>(group: &mut Assembly<P, M>, rank: usize) -> Turn
    requires { rank < length (machines_of group.old) }
    ensures follow { HaveFollowed (machines_of group.old) (machines_of group.new) }
    ensures room { HasRoom group.old → HasRoom group.new }
{
    turn_one(group.machines(), rank)
}

#[test]
fn a_group_runs_on_after_a_turn_by_hand(rt: HostRuntime) -> Result<(), Fail> {
    let ranks = Ranks::new(2).ok_or("no number of ranks")?;
    let programs = rolls(rt.alloc(), ranks, 2)?;
    let mut group = assemble::<Roll, RingLanes>(&(), rt.alloc(), programs, 1)?;
    let turn = turn_in(&mut group, 0);
    assert_eq!(rt; turn, Turn::Moved);
    let finished = run(&rt, group, 1, &OpenGate);
    assert_eq!(rt; finished.programs.len(), 2);
    for program in &finished.programs {
        assert_eq!(rt; program.taken(), 2);
    }
    Ok(())
}
