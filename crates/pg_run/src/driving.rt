//! Drives machines turn by turn on the caller's thread.
ghost use Rattle.std.specs.Prelude.{◌≡◌, ◌↔◌, ◌&&◌, ◌||◌, ℕ, true};
ghost use Rattle.pg_group.specs.Entries.{Each};
ghost use Rattle.pg_run.specs.Calls.{TurnsOne};
ghost use Rattle.pg_run.specs.Driven.{HaveFollowed, HadTurn, HadPasses};
ghost use Rattle.pg_run.specs.Machines.{has_ended};
ghost use Rattle.pg_run.specs.Repeated.{Repeated, AllStepped};
ghost use Rattle.pg_run.specs.Turns.{is_done, has_moved};

use crate::Turn;
use crate::driven::Driven;
use crate::runners::Runner;
use pg_base::Gate;
use pg_group::{Mailbox, Program};
use std::sync::Wait;

/// Gives each machine a turn in order, again and again, until all have ended, all on the caller's thread. A machine
/// passes the gate with its rank and the number of its next turn before each turn, also where it has ended and the turn
/// changes nothing. Where the machines don't end, neither does the call.
pub fn drive<W: Wait, P: Program, M: Mailbox<P::Body>, G: Gate>(
    token: &W,
    machines: &mut [Runner<P, M>],
    gate: &G,
)
    ensures follow { HaveFollowed machines.old machines.new }
    ensures passes { (passes : ℕ) × HadPasses passes machines.old machines.new }
    ensures done { Each (λ place r. has_ended r ≡ true) machines.new }
{
    let step = |machine: &mut Runner<P, M>| -> Turn
        ensures { HadTurn machine.entry.now machine.exit.now × (is_done result ≡ has_ended machine.exit.now) }
    { pass_and_turn(machine, gate) };
    drive_here(token, &step, machines)
}

// Passes the gate and gives the machine one turn.
pub(crate) fn pass_and_turn<P: Program, M: Mailbox<P::Body>, G: Gate>(
    machine: &mut Runner<P, M>,
    gate: &G,
) -> Turn
    ensures turn { HadTurn machine.old machine.new }
    ensures done { is_done result ≡ has_ended machine.new }
{
    gate.pass(machine.rank(), machine.next_turn());
    machine.turn()
}

// Gives each machine a turn in order, again and again, until all have ended.
fn drive_here<W: Wait, D: Driven, F: Fn(&mut D) -> Turn>(token: &W, step: &F, machines: &mut [D])
    requires can { F.IsAlwaysCallable step.now }
    requires turns { TurnsOne D.Turned D.ended F.Fn step.now }
    ensures passes { (passes : ℕ) × Repeated (AllStepped D.Turned) passes machines.old machines.new }
    ensures done { Each (λ place x. D.ended x ≡ true) machines.new }
{
    'passes: for _ in token.forever() {
        match turn_each(step, machines) {
            Turn::Moved | Turn::Waiting => {}
            Turn::Done => return,
        }
    }
    unreachable!()
}

// Gives each machine one turn, in order. Answers `Done` exactly where all have ended, and `Waiting` only where
// none moved.
pub(crate) fn turn_each<D: Driven, F: Fn(&mut D) -> Turn>(step: &F, machines: &mut [D]) -> Turn
    requires can { F.IsAlwaysCallable step.now }
    requires turns { TurnsOne D.Turned D.ended F.Fn step.now }
    ensures pass { AllStepped D.Turned machines.old machines.new }
    ensures done { (is_done result ≡ true) ↔ Each (λ place x. D.ended x ≡ true) machines.new }
{
    let mut all = Turn::Done;
    for i in 0..machines.len() {
        all = both(all, turn_one(step, &mut machines[i]));
    }
    all
}

// Gives a machine its turn.
fn turn_one<D: Driven, F: Fn(&mut D) -> Turn>(step: &F, machine: &mut D) -> Turn
    requires can { F.IsAlwaysCallable step.now }
    requires turns { TurnsOne D.Turned D.ended F.Fn step.now }
    ensures turn { D.Turned machine.old machine.new }
    ensures done { is_done result ≡ D.ended machine.new }
{
    step(machine)
}

// What two turns did, taken together.
fn both(a: Turn, b: Turn) -> Turn
    ensures done { is_done result ≡ (is_done a && is_done b) }
    ensures moved { has_moved result ≡ (has_moved a || has_moved b) }
{
    match (a, b) {
        (Turn::Done, Turn::Done) => Turn::Done,
        (Turn::Moved, _) | (_, Turn::Moved) => Turn::Moved,
        _ => Turn::Waiting,
    }
}
