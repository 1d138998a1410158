//! Runs of groups on one thread and on several.
ghost use Rattle.std.specs.Prelude.{◌≤◌};

use crate::tests::rolls;
use pg_base::{Gate, OpenGate, RankNo, Ranks};
use pg_group::Roll;
use pg_lane::RingLanes;
use pg_run::{assemble, run};
use std::alloc::AllocGlobal;
use std::sync::Wait;
use std::sync::atomic::{AtomicBool, Ordering};
use std::test::Fail;
use std::thread;
use std::thread::Threads;

const LOOKS: u64 = 50_000_000;

// Notes each rank that passes, and holds each one before its first turn until all ranks are noted. After so many
// looks it lets the rank go.
#[derive(Drop)]
struct Meeting {
    looks: u64,
    noted: [AtomicBool; 4],
    gave_up: AtomicBool,
}

impl Meeting {
    // For so many ranks, at most 4. The others are noted from the beginning.
    fn new(ranks: u32, looks: u64) -> Meeting {
        Meeting {
            looks,
            noted: [
                AtomicBool::new(ranks < 1),
                AtomicBool::new(ranks < 2),
                AtomicBool::new(ranks < 3),
                AtomicBool::new(ranks < 4),
            ],
            gave_up: AtomicBool::new(false),
        }
    }

    fn note(&self, rank: RankNo) {
        if let Some(noted) = self.noted.get(rank.0 as usize) {
            noted.store(true, Ordering::SeqCst);
        }
    }

    fn are_all_noted(&self) -> bool {
        self.noted.iter().all(|noted| noted.load(Ordering::SeqCst))
    }

    fn gave_up(&self) -> bool {
        self.gave_up.load(Ordering::SeqCst)
    }
}

impl Gate for Meeting {
    fn pass(&self, rank: RankNo, turn: u64) {
        self.note(rank);
        if turn != 1 {
            return;
        }
        for _ in 0..self.looks {
            if self.are_all_noted() {
                return;
            }
            thread::yield_now();
        }
        self.gave_up.store(true, Ordering::SeqCst);
    }
}

// Runs a group of rolls on so many threads. Answers how many messages each rank took, or None where they differ.
fn taken_by_each<R: Threads + Wait + Sync + AllocGlobal, G: Gate>(
    rt: &R,
    ranks: u32,
    threads: u32,
    gate: &G,
) -> Result<Option<u64>, Fail>
    requires { 1 ≤ threads }
{
    let ranks = Ranks::new(ranks).ok_or("no number of ranks")?;
    let programs = rolls(rt.alloc(), ranks, 1)?;
    let group = assemble::<Roll, RingLanes>(&(), rt.alloc(), programs, 1)?;
    let finished = run(rt, group, threads, gate);
    let first = finished.programs.first().ok_or("no program")?.taken();
    Ok(
        finished
            .programs
            .iter()
            .all(|program| program.taken() == first)
            .then_some(first),
    )
}

#[test]
fn two_ranks_on_two_threads_run_side_by_side(rt: HostRuntime) -> Result<(), Fail> {
    let gate = Meeting::new(2, LOOKS);
    assert_eq!(rt; taken_by_each(&rt, 2, 2, &gate)?, Some(1));
    assert!(rt; !gate.gave_up());
    Ok(())
}

#[test]
fn four_ranks_on_four_threads_run_side_by_side(rt: HostRuntime) -> Result<(), Fail> {
    let gate = Meeting::new(4, LOOKS);
    assert_eq!(rt; taken_by_each(&rt, 4, 4, &gate)?, Some(3));
    assert!(rt; !gate.gave_up());
    Ok(())
}

#[test]
fn ranks_on_one_thread_run_one_after_the_other(rt: HostRuntime) -> Result<(), Fail> {
    let gate = Meeting::new(2, 100);
    assert_eq!(rt; taken_by_each(&rt, 2, 1, &gate)?, Some(1));
    assert!(rt; gate.gave_up());
    Ok(())
}

#[test]
fn each_number_of_threads_gives_the_same_messages(rt: HostRuntime) -> Result<(), Fail> {
    let cases = [
        (1, 32, 0),
        (3, 32, 2),
        (4, 3, 3),
        (32, 1, 31),
        (32, 3, 31),
        (32, 32, 31),
    ];
    for (ranks, threads, messages) in cases {
        assert_eq!(rt;
            taken_by_each(&rt, ranks, threads, &OpenGate)?,
            Some(messages)
        );
    }
    Ok(())
}
