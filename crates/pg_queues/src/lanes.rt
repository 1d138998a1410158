//! Messages through a lane.
ghost use Rattle.std.specs.Prelude.{◌≤◌};

use pg_base::OutOfMemory;
use pg_lane::{InEnd, LaneKind, OutEnd, RingIn, RingLanes, RingOut};
use std::alloc::Global;
use std::sync::Wait;
use std::thread;
use std::thread::Threads;

/// Sends the numbers below `messages` from one thread to another, through a queue that holds at most `capacity` of
/// them. Answers how many came in order. `Err` says that the run is out of memory.
pub fn cross<R: Threads + Wait + Sync>(
    rt: &R,
    alloc: Global,
    capacity: u32,
    messages: u32,
) -> Result<u32, OutOfMemory>
    requires at_least { 1 ≤ capacity }
    requires at_most { capacity ≤ 1024 }
{
    let (out, inn) = RingLanes::make((), alloc, capacity)?;
    let ((), in_order) = thread::join(
        rt,
        move || send_all(rt, out, messages),
        move || count_in_order(rt, inn, messages),
    );
    Ok(in_order)
}

/// Fills a queue of this capacity and empties it in turn on this thread, until at least `messages` came. Answers how
/// many came in order. `Err` says that the run is out of memory.
pub fn turn<R: Wait>(
    rt: &R,
    alloc: Global,
    capacity: u32,
    messages: u32,
) -> Result<u32, OutOfMemory>
    requires at_least { 1 ≤ capacity }
    requires at_most { capacity ≤ 1024 }
{
    let (out, inn) = RingLanes::make((), alloc, capacity)?;
    Ok(fill_and_empty(rt, out, inn, capacity, messages))
}

fn send_all<R: Wait>(rt: &R, mut out: RingOut<u32>, messages: u32) {
    let mut next = 0u32;
    for _ in rt.forever() {
        if next >= messages {
            break;
        }
        match out.push(next) {
            Ok(()) => next += 1,
            Err(_) => thread::yield_now(),
        }
    }
}

// How many of the messages that come are the number of messages that came before.
fn count_in_order<R: Wait>(rt: &R, mut inn: RingIn<u32>, messages: u32) -> u32 {
    let mut next = 0u32;
    let mut in_order = 0u32;
    for _ in rt.forever() {
        if next >= messages {
            break;
        }
        match inn.pop() {
            Some(number) => {
                in_order = in_order.wrapping_add(u32::from(number == next));
                next += 1;
            }
            None => thread::yield_now(),
        }
    }
    in_order
}

fn fill_and_empty<R: Wait>(
    rt: &R,
    mut out: RingOut<u32>,
    mut inn: RingIn<u32>,
    capacity: u32,
    messages: u32,
) -> u32 {
    let mut next = 0u32;
    let mut taken = 0u32;
    let mut in_order = 0u32;
    for _ in rt.forever() {
        if taken >= messages {
            break;
        }
        for _ in 0..capacity {
            if out.push(next).is_ok() {
                next = next.wrapping_add(1);
            }
        }
        for _ in 0..capacity {
            if let Some(number) = inn.pop() {
                in_order = in_order.wrapping_add(u32::from(number == taken));
                taken = taken.wrapping_add(1);
            }
        }
    }
    in_order
}
