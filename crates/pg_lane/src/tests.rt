//! Small lanes filled and emptied by hand, and many messages from one thread to another.
ghost use Rattle.std.specs.Prelude.{◌≤◌};

use super::*;
use pg_base::OutOfMemory;
use std::alloc::Global;
use std::sync::Wait;
use std::test::*;
use std::thread;
use std::thread::Threads;

type Pushing = Result<(), Full<u32>>;

#[derive(Drop)]
struct Answers {
    pushes: (Pushing, Pushing),
    pops: (Option<u32>, Option<u32>),
    settled: Settled<u32>,
}

// Two pushes into a lane of capacity 1, and then two pops.
fn two_and_two<K: LaneKind<u32>>(token: K::Token, alloc: Global) -> Result<Answers, OutOfMemory> {
    let (mut out, mut inn) = K::make(token, alloc, 1)?;
    let pushes = (out.push(7), out.push(8));
    let pops = (inn.pop(), inn.pop());
    Ok(Answers {
        pushes,
        pops,
        settled: K::settle(out, inn),
    })
}

#[test]
fn a_lane_of_one_refuses_a_second_message(rt: HostRuntime) -> Result<(), Fail> {
    let answers = two_and_two::<RingLanes>((), rt.alloc())?;
    assert_eq!(rt; answers.pushes, (Ok(()), Err(Full(8))));
    assert_eq!(rt; answers.pops, (Some(7), None));
    assert_eq!(rt; answers.settled.pushed(), 1);
    assert_eq!(rt; answers.settled.left(), 0);
    Ok(())
}

// The lists that a lane of capacity 2 answers, once it went round.
fn round_a_lane_of_two<K: LaneKind<u32>>(
    token: K::Token,
    alloc: Global,
) -> Result<([Pushing; 4], [Option<u32>; 4], Settled<u32>), OutOfMemory> {
    let (mut out, mut inn) = K::make(token, alloc, 2)?;
    let (first, second, third) = (out.push(1), out.push(2), out.push(3));
    let oldest = inn.pop();
    let fourth = out.push(4);
    let pops = [oldest, inn.pop(), inn.pop(), inn.pop()];
    Ok(([first, second, third, fourth], pops, K::settle(out, inn)))
}

#[test]
fn a_lane_of_two_goes_round(rt: HostRuntime) -> Result<(), Fail> {
    let (pushes, pops, settled) = round_a_lane_of_two::<RingLanes>((), rt.alloc())?;
    assert_eq!(rt; pushes, [Ok(()), Ok(()), Err(Full(3)), Ok(())]);
    assert_eq!(rt; pops, [Some(1), Some(2), Some(4), None]);
    assert_eq!(rt; settled.pushed(), 3);
    assert_eq!(rt; settled.left(), 0);
    Ok(())
}

const MESSAGES: u32 = 100_000;

fn send_all(rt: &impl Wait, mut out: RingOut<u32>) {
    let mut next = 0;
    for _ in rt.forever() {
        if next >= MESSAGES {
            break;
        }
        match out.push(next) {
            Ok(()) => next += 1,
            Err(_) => thread::yield_now(),
        }
    }
}

// How many of the messages that come are the number of messages that came before.
fn count_in_order(rt: &impl Wait, mut inn: RingIn<u32>) -> u32 {
    let mut next = 0;
    let mut in_order = 0;
    for _ in rt.forever() {
        if next >= MESSAGES {
            break;
        }
        match inn.pop() {
            Some(number) => {
                in_order += u32::from(number == next);
                next += 1;
            }
            None => thread::yield_now(),
        }
    }
    in_order
}

// How many messages come in order when all go from one thread to another through a lane of this capacity.
fn count_across<R: Threads + Wait + Sync>(
    rt: &R,
    alloc: Global,
    capacity: u32,
) -> Result<u32, OutOfMemory>
    requires at_least { 1 ≤ capacity }
    requires at_most { capacity ≤ 1024 }
{
    let (out, inn) = RingLanes::make((), alloc, capacity)?;
    let ((), in_order) = thread::join(
        rt,
        move || send_all(rt, out),
        move || count_in_order(rt, inn),
    );
    Ok(in_order)
}

#[test]
fn every_message_reaches_the_other_thread_in_order(rt: HostRuntime) -> Result<(), Fail> {
    assert_eq!(rt; count_across(&rt, rt.alloc(), 4)?, MESSAGES);
    Ok(())
}

#[test]
fn every_message_crosses_a_lane_of_one(rt: HostRuntime) -> Result<(), Fail> {
    assert_eq!(rt; count_across(&rt, rt.alloc(), 1)?, MESSAGES);
    Ok(())
}

#[test]
fn every_message_crosses_the_largest_lane(rt: HostRuntime) -> Result<(), Fail> {
    assert_eq!(rt; count_across(&rt, rt.alloc(), 1024)?, MESSAGES);
    Ok(())
}
