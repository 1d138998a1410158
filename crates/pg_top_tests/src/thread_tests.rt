//! Ranks that run side by side.

use crate::running::{MESH, Seen, run_over, words_of};
use pg_base::{Gate, RankNo, Status};
use std::alloc::AllocGlobal;
use std::sync::Wait;
use std::sync::atomic::{AtomicBool, Ordering};
use std::test::Fail;
use std::thread;
use std::thread::Threads;

/// How often a rank looks for the others before it goes on.
const LOOKS: u64 = 50_000_000;

/// Holds each of at most four ranks before its first turn until the others came there too.
#[derive(Drop)]
struct Meeting {
    came: [AtomicBool; 4],
    gave_up: AtomicBool,
}

impl Meeting {
    /// For so many ranks. The others have come from the beginning.
    fn new(ranks: u32) -> Meeting {
        Meeting {
            came: [
                AtomicBool::new(ranks < 1),
                AtomicBool::new(ranks < 2),
                AtomicBool::new(ranks < 3),
                AtomicBool::new(ranks < 4),
            ],
            gave_up: AtomicBool::new(false),
        }
    }

    fn note(&self, rank: RankNo) {
        if let Some(came) = self.came.get(rank.0 as usize) {
            came.store(true, Ordering::SeqCst);
        }
    }

    fn came_all(&self) -> bool {
        self.came.iter().all(|came| came.load(Ordering::SeqCst))
    }

    fn gave_up(&self) -> bool {
        self.gave_up.load(Ordering::SeqCst)
    }
}

impl Gate for Meeting {
    fn pass(&self, rank: RankNo, turn: u64) {
        self.note(rank);
        if turn != 1 {
            return;
        }
        for _ in 0..LOOKS {
            if self.came_all() {
                return;
            }
            thread::yield_now();
        }
        self.gave_up.store(true, Ordering::SeqCst);
    }
}

/// Runs the search of a line over the mesh. Its ranks go through the gate.
fn search_through<W: Threads + Wait + Sync + AllocGlobal, G: Gate>(
    rt: &W,
    line: &str,
    gate: &G,
) -> Result<Seen, Fail> {
    let alloc = rt.alloc();
    let words = words_of(alloc, line)?;
    let named = [("B", MESH)];
    run_over(rt, &words, &named, Vec::new(alloc), Vec::new(alloc), gate)
}

#[test]
fn two_threads_drive_two_ranks_side_by_side(rt: HostRuntime) -> Result<(), Fail> {
    let gate = Meeting::new(2);
    let seen = search_through(&rt, "bfs B --source 1 --ranks 2 --threads 2 ", &gate)?;
    assert_eq!(rt; seen.out.text(), b"0\n1\n1\n2\n1\n2\n3\n".as_slice());
    assert_eq!(rt; gate.gave_up(), false);
    Ok(())
}

#[test]
fn four_threads_drive_four_ranks_side_by_side(rt: HostRuntime) -> Result<(), Fail> {
    let gate = Meeting::new(4);
    let seen = search_through(&rt, "bfs B --source 1 --ranks 4 --threads 4 ", &gate)?;
    assert_eq!(rt; seen.status, Status::Ok);
    assert_eq!(rt; seen.out.text(), b"0\n1\n1\n2\n1\n2\n3\n".as_slice());
    assert_eq!(rt; gate.gave_up(), false);
    Ok(())
}
