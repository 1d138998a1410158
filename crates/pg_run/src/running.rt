//! Runs a group on threads until all its programs have ended.
ghost use Rattle.std.specs.Prelude.{◌≡◌, ◌≤◌, ◌+◌, ◌-◌, ◌*◌, ℕ, [], ◌++◌, true, length, map, slice_get, Some};
ghost use Rattle.std.specs.Vec.{vec_capacity};
ghost use Rattle.pg_group.specs.Entries.{Each};
ghost use Rattle.pg_group.specs.Ranked.{place_of};
ghost use Rattle.pg_group.specs.Book.{IsWhole, IsMarked, KeepsOver};
ghost use Rattle.pg_run.specs.Lanes.{IsLane, AreWhole, sent_on, taken_on};
ghost use Rattle.pg_run.specs.Driven.{AreReady, HaveFollowed, HadTurn, HadGroupPass};
ghost use Rattle.pg_run.specs.Machines.{machines_of, opening_of, port_of, has_ended, HasRoom};
ghost use Rattle.pg_run.specs.Repeated.{Repeated};
ghost use Rattle.pg_run.specs.Turns.{is_done};
ghost use Rattle.pg_lane.specs.Settled.{settled_capacity};

use crate::driving::pass_and_turn;
use crate::groups::{Assembly, Group};
use crate::runners::Runner;
use crate::threading::drive_all;
use crate::{Finished, Turn};
use pg_base::Gate;
use pg_group::{Envelope, Mailbox, Port, Program, close_ports};
use pg_lane::LaneKind;
use std::sync::Wait;
use std::thread::Threads;

/// Runs a group until all its programs have ended, and answers their final states and the settled lanes. Where they
/// don't end, neither does the call. Allocates nothing itself.
///
/// Every message that was sent was taken, in its sender's order, all ranks have ended as many rounds, and each
/// program has kept what it promises from its opening state, over just the messages that it took and sent.
///
/// The machines are driven in groups of neighbouring ranks: as many as there are threads, or as ranks where these are
/// fewer. Two sizes differ by one at most, and the larger ones come first. The first group is driven on the caller's
/// thread and each other one on a thread of its own, or, where none can be made, on the caller's after it. In one pass
/// a group gives its machines turns until all have ended or each had 100,000; the next pass begins when all groups have
/// returned. A machine passes the gate with its rank and the number of its next turn before each turn.
pub fn run<
    R: Threads + Wait + Sync,
    P: Program + Drop,
    K: LaneKind<Envelope<P::Body>> + Send,
    G: Gate,
>(token: &R, group: Group<P, K>, threads: u32, gate: &G) -> Finished<P>
    requires threads { 1 ≤ threads }
    requires ready { AreReady (machines_of group) }
    requires room { HasRoom group }
    ensures programs { length result.programs.items ≡ length (machines_of group) }
    ensures ended { Each (λ rank p. P.ended p ≡ true) result.programs.items }
    ensures lanes { AreWhole (length (machines_of group)) result.lanes.items }
    ensures book { IsWhole (length (machines_of group)) (sent_on (length (machines_of group)) result.lanes.items) (taken_on (length (machines_of group)) result.lanes.items) }
    ensures marks { IsMarked (length (machines_of group)) (sent_on (length (machines_of group)) result.lanes.items) }
    ensures keeps { Each (λ rank p. Each (λ place r. rank ≡ place → KeepsOver ⟦<P as Program>⟧ (length (machines_of group)) rank
        (sent_on (length (machines_of group)) result.lanes.items) (taken_on (length (machines_of group)) result.lanes.items) (opening_of r) p) (machines_of group)) result.programs.items }
    ensures capacities { Each (λ sender r. (receiver : ℕ) (lane : _) → IsLane (length (machines_of group)) result.lanes.items sender receiver lane
        → slice_get (⟦<Port<P::Body, K> as Mailbox<P::Body>>⟧.wiring (port_of r)).capacities (place_of sender receiver) ≡ Some (settled_capacity lane)) (machines_of group) }
{
    let Assembly {
        mut runners,
        mut programs,
        mut ports,
        mut lanes,
    } = group;
    drive_list(token, &mut runners, threads, gate);
    take_apart(runners, &mut programs, &mut ports);
    close_ports(ports, &mut lanes);
    Finished { programs, lanes }
}

// Drives the machines until all have ended.
fn drive_list<R: Threads + Wait + Sync, P: Program, M: Mailbox<P::Body> + Send, G: Gate>(
    token: &R,
    machines: &mut Vec<Runner<P, M>>,
    threads: u32,
    gate: &G,
)
    ensures follow { HaveFollowed machines.old.items machines.new.items }
    ensures done { Each (λ place r. has_ended r ≡ true) machines.new.items }
{
    drive_machines(token, machines, threads, gate);
}

// Drives the machines in groups of neighbours until all have ended. A machine passes the gate before each turn.
fn drive_machines<R: Threads + Wait + Sync, P: Program, M: Mailbox<P::Body> + Send, G: Gate>(
    token: &R,
    machines: &mut [Runner<P, M>],
    threads: u32,
    gate: &G,
)
    ensures passes { (passes : ℕ) × Repeated (HadGroupPass 100000) passes machines.old machines.new }
    ensures follow { HaveFollowed machines.old machines.new }
    ensures done { Each (λ place r. has_ended r ≡ true) machines.new }
{
    let step = |machine: &mut Runner<P, M>| -> Turn
        ensures { HadTurn machine.entry.now machine.exit.now × (is_done result ≡ has_ended machine.exit.now) }
    { pass_and_turn(machine, gate) };
    drive_all(token, &step, threads as usize, machines);
}

// Appends the programs and the mailboxes of the machines, in their order, to two empty lists.
fn take_apart<P: Program + Drop, M: Mailbox<P::Body> + Drop>(
    mut runners: Vec<Runner<P, M>>,
    programs: &mut Vec<P>,
    mailboxes: &mut Vec<M>,
)
    requires no_programs { programs.old.items ≡ [] }
    requires no_mailboxes { mailboxes.old.items ≡ [] }
    requires programs_fit { length runners.items ≤ vec_capacity programs.old }
    requires mailboxes_fit { length runners.items ≤ vec_capacity mailboxes.old }
    ensures programs { programs.new.items ≡ map (λ r. r.program) runners.items }
    ensures mailboxes { mailboxes.new.items ≡ map (λ r. r.outlet.port) runners.items }
{
    while let Some(runner) = runners.pop() {
        programs.push_reserved(runner.program);
        mailboxes.push_reserved(runner.outlet.port);
    }
    programs.reverse();
    mailboxes.reverse();
}
