//! Messages through the kit's bounded queue `crossbeam_queue`.
ghost use Rattle.std.specs.Prelude.{◌≤◌};

use crossbeam_queue::ArrayQueue;
use pg_base::OutOfMemory;
use std::alloc::Global;
use std::sync::{Arc, Wait};
use std::thread;
use std::thread::Threads;

/// Sends the numbers below `messages` from one thread to another, through a queue that holds at most `capacity` of
/// them. Answers how many came in order. `Err` says that the run is out of memory.
pub fn cross<R: Threads + Wait + Sync>(
    rt: &R,
    alloc: Global,
    capacity: u32,
    messages: u32,
) -> Result<u32, OutOfMemory>
    requires { 1 ≤ capacity }
{
    let Ok(queue) = ArrayQueue::new(alloc, capacity as usize) else {
        return Err(OutOfMemory);
    };
    let Ok(queue) = Arc::new(alloc, queue) else {
        return Err(OutOfMemory);
    };
    let Ok(theirs) = Arc::try_clone(&queue) else {
        return Err(OutOfMemory);
    };
    let ((), in_order) = thread::join(
        rt,
        move || send_all(rt, &queue, messages),
        move || count_in_order(rt, &theirs, messages),
    );
    Ok(in_order)
}

/// Fills a queue of this capacity and empties it in turn on this thread, until at least `messages` came. Answers how
/// many came in order. `Err` says that the run is out of memory.
pub fn turn<R: Wait>(
    rt: &R,
    alloc: Global,
    capacity: u32,
    messages: u32,
) -> Result<u32, OutOfMemory>
    requires { 1 ≤ capacity }
{
    let Ok(queue) = ArrayQueue::new(alloc, capacity as usize) else {
        return Err(OutOfMemory);
    };
    Ok(fill_and_empty(rt, &queue, capacity, messages))
}

fn send_all<R: Wait>(rt: &R, queue: &ArrayQueue<u32>, messages: u32) {
    let mut next = 0u32;
    for _ in rt.forever() {
        if next >= messages {
            break;
        }
        match queue.push(rt, next) {
            Ok(()) => next += 1,
            Err(_) => thread::yield_now(),
        }
    }
}

// How many of the messages that come are the number of messages that came before.
fn count_in_order<R: Wait>(rt: &R, queue: &ArrayQueue<u32>, messages: u32) -> u32 {
    let mut next = 0u32;
    let mut in_order = 0u32;
    for _ in rt.forever() {
        if next >= messages {
            break;
        }
        match queue.pop(rt) {
            Some(number) => {
                in_order = in_order.wrapping_add(u32::from(number == next));
                next += 1;
            }
            None => thread::yield_now(),
        }
    }
    in_order
}

fn fill_and_empty<R: Wait>(rt: &R, queue: &ArrayQueue<u32>, capacity: u32, messages: u32) -> u32 {
    let mut next = 0u32;
    let mut taken = 0u32;
    let mut in_order = 0u32;
    for _ in rt.forever() {
        if taken >= messages {
            break;
        }
        for _ in 0..capacity {
            if queue.push(rt, next).is_ok() {
                next = next.wrapping_add(1);
            }
        }
        for _ in 0..capacity {
            if let Some(number) = queue.pop(rt) {
                in_order = in_order.wrapping_add(u32::from(number == taken));
                taken = taken.wrapping_add(1);
            }
        }
    }
    in_order
}
