//! Drives machines in groups, each group on a thread of its own.
ghost use Rattle.std.specs.Prelude.{◌≡◌, ◌↔◌, ◌≤◌, ◌<◌, ◌+◌, ℕ, true, length};
ghost use Rattle.std.specs.Thread.{IsSync, IsSend};
ghost use Rattle.pg_group.specs.Entries.{Each};
ghost use Rattle.pg_run.specs.Calls.{TurnsOne};
ghost use Rattle.pg_run.specs.Blocks.{group_start};
ghost use Rattle.pg_run.specs.Repeated.{Repeated, RepeatedToEnd, AllStepped};

use crate::Turn;
use crate::cutting::Cut;
use crate::driven::Driven;
use crate::driving::turn_each;
use std::sync::Wait;
use std::thread;
use std::thread::{Threads, join_mut};

// How many turns one pass gives each machine at most.
const TURNS: u32 = 100_000;

// Drives the machines in groups of neighbours, pass after pass, until all have ended. There are as many groups
// as threads, or as machines where these are fewer.
pub(crate) fn drive_all<R: Threads + Wait + Sync, D: Driven + Send, F: Fn(&mut D) -> Turn + Sync>(
    token: &R,
    step: &F,
    threads: usize,
    machines: &mut [D],
)
    requires can { F.IsAlwaysCallable step.now }
    requires turns { TurnsOne D.Turned D.ended F.Fn step.now }
    ensures passes { (passes : ℕ) × Repeated (AllStepped (RepeatedToEnd D.Turned D.ended 100000)) passes machines.old machines.new }
    ensures done { Each (λ place x. D.ended x ≡ true) machines.new }
{
    let cut = Cut::new(machines.len(), threads);
    'passes: for _ in token.forever() {
        drive_groups(token, step, &cut, cut.groups - 1, machines);
        if have_ended(machines) {
            return;
        }
    }
    unreachable!()
}

// One pass over the machines of the first groups, up to the one named last: that one on a thread of its own, and
// so each one before it but the first, which is driven on the caller's.
#[cycle(groups)]
fn drive_groups<R: Threads + Sync, D: Driven + Send, F: Fn(&mut D) -> Turn + Sync>(
    token: &R,
    step: &F,
    cut: &Cut,
    last: usize,
    machines: &mut [D],
)
    requires can { F.IsAlwaysCallable step.now }
    requires turns { TurnsOne D.Turned D.ended F.Fn step.now }
    requires within { last < cut.now.groups }
    requires machines { length machines.old ≡ group_start cut.now.places cut.now.groups (last + 1) }
    ensures { AllStepped (RepeatedToEnd D.Turned D.ended 100000) machines.old machines.new }
{
    if last == 0 {
        drive_group(step, machines);
        return;
    }
    let (front, back) = machines.split_at_mut(cut.start(last));
    let before = last - 1;
    join_mut(
        token,
        &mut ||
            requires { IsSend D.row × IsSync F.row × F.IsAlwaysCallable step.now × TurnsOne D.Turned D.ended F.Fn step.now }
            ensures { AllStepped (RepeatedToEnd D.Turned D.ended 100000) back.entry.now back.exit.now }
        { drive_group(step, back) },
        &mut ||
            requires { IsSync R.row × IsSend D.row × IsSync F.row × F.IsAlwaysCallable step.now × TurnsOne D.Turned D.ended F.Fn step.now
                × (before < cut.now.groups) × (length front.now ≡ group_start cut.now.places cut.now.groups (before + 1)) }
            ensures { AllStepped (RepeatedToEnd D.Turned D.ended 100000) front.entry.now front.exit.now }
        { drive_groups(token, step, cut, before, front) },
    );
}

// One pass over a group: turns in order, until all its machines have ended or each had as many turns as a
// pass gives. Where no machine moved, other threads get the processor.
fn drive_group<D: Driven, F: Fn(&mut D) -> Turn>(step: &F, machines: &mut [D])
    requires can { F.IsAlwaysCallable step.now }
    requires turns { TurnsOne D.Turned D.ended F.Fn step.now }
    ensures { AllStepped (RepeatedToEnd D.Turned D.ended 100000) machines.old machines.new }
{
    'turns: for _turned in 0..TURNS {
        match turn_each(step, machines) {
            Turn::Moved => {}
            Turn::Waiting => thread::yield_now(),
            Turn::Done => return,
        }
    }
}

// Whether all machines have ended.
fn have_ended<D: Driven>(machines: &[D]) -> bool
    ensures { (result ≡ true) ↔ Each (λ place x. D.ended x ≡ true) machines.now }
{
    machines.iter().all(|machine| machine.has_ended())
}
