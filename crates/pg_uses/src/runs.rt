//! Whole runs of the search for the greatest degree.
ghost use Rattle.std.specs.Prelude.{◌≡◌, ◌≤◌, IfOk, Some, length, slice_get};
ghost use Rattle.pg_group.specs.Entries.{Each};
ghost use Rattle.pg_adj.specs.Portions.{Portion};
ghost use Rattle.pg_uses.specs.Degrees.{IsGreatestDegree};
ghost use Rattle.pg_uses.specs.Kept.{IsProgramOf, greatest_in};
ghost use Rattle.pg_uses.specs.Runs.{AreInOrder, IsRun, IsRunOver};

use crate::Degrees;
use pg_adj::{Part, split};
use pg_base::{EdgeList, OpenGate, OutOfMemory, Ranks};
use pg_dist::{Block, Distribution};
use pg_lane::RingLanes;
use pg_run::{Finished, assemble, run};
use std::alloc::Global;
use std::sync::Wait;
use std::thread::Threads;

/// The greatest degree of the graph, 0 where it has no vertex, found by this many ranks, among which the vertices are
/// divided in blocks. The ranks are driven by `threads` threads, and a lane holds `capacity` messages, 1 to 1024.
/// `OutOfMemory` comes only where an allocation is refused.
pub fn greatest_degree<W: Threads + Wait + Sync>(
    token: &W,
    alloc: Global,
    graph: &EdgeList,
    ranks: Ranks,
    threads: u32,
    capacity: u32,
) -> Result<u64, OutOfMemory>
    requires threads { 1 ≤ threads }
    requires capacity_at_least { 1 ≤ capacity }
    requires capacity_at_most { capacity ≤ 1024 }
    ensures { IfOk result (λ d. IsGreatestDegree graph.now d) }
{
    let dist = Block::new(graph.n(), ranks);
    greatest_degree_over(token, alloc, graph, &dist, threads, capacity)
}

/// The same by the ranks of a distribution, which says which rank owns each vertex.
pub fn greatest_degree_over<W: Threads + Wait + Sync, D: Distribution>(
    token: &W,
    alloc: Global,
    graph: &EdgeList,
    dist: &D,
    threads: u32,
    capacity: u32,
) -> Result<u64, OutOfMemory>
    requires n { graph.now.n ≡ (D.sharing dist.now).n }
    requires threads { 1 ≤ threads }
    requires capacity_at_least { 1 ≤ capacity }
    requires capacity_at_most { capacity ≤ 1024 }
    ensures { IfOk result (λ d. IsGreatestDegree graph.now d) }
{
    let _ranks = dist.ranks().count();
    let finished = run_degrees(token, alloc, graph, dist, threads, capacity)?;
    Ok(finished.programs[0].greatest())
}

/// Divides the graph and runs a program for each rank until all have ended. Each of them knows the greatest degree
/// then. The programs and the lanes come back: every message was taken, and each program has kept its promise.
/// `OutOfMemory` comes only where an allocation is refused.
pub fn run_degrees<W: Threads + Wait + Sync, D: Distribution>(
    token: &W,
    alloc: Global,
    graph: &EdgeList,
    dist: &D,
    threads: u32,
    capacity: u32,
) -> Result<Finished<Degrees>, OutOfMemory>
    requires n { graph.now.n ≡ (D.sharing dist.now).n }
    requires threads { 1 ≤ threads }
    requires capacity_at_least { 1 ≤ capacity }
    requires capacity_at_most { capacity ≤ 1024 }
    ensures count { IfOk result (λ f. length f.programs.items ≡ (D.sharing dist.now).ranks) }
    ensures run { IfOk result (λ f. IsRun (D.sharing dist.now) graph.now f.programs.items f.lanes.items) }
    ensures each { IfOk result (λ f. Each (λ rank p. IsGreatestDegree graph.now (greatest_in p)) f.programs.items) }
{
    let _n = graph.n();
    let _ranks = dist.ranks().count();
    let parts = split(alloc, graph, dist)?;
    run_over(token, alloc, parts, threads, capacity)
}

// Runs the programs of the parts, one for each rank, until all have ended.
fn run_over<W: Threads + Wait + Sync>(
    token: &W,
    alloc: Global,
    parts: Vec<Part>,
    threads: u32,
    capacity: u32,
) -> Result<Finished<Degrees>, OutOfMemory>
    requires at_least_one { 1 ≤ length parts.items }
    requires at_most { length parts.items ≤ 32 }
    requires order { AreInOrder parts.items }
    requires threads { 1 ≤ threads }
    requires capacity_at_least { 1 ≤ capacity }
    requires capacity_at_most { capacity ≤ 1024 }
    ensures { IfOk result (λ f. IsRunOver parts.items f.programs.items f.lanes.items) }
{
    let programs = programs_of(alloc, parts)?;
    let group = assemble::<Degrees, RingLanes>(&(), alloc, programs, capacity)?;
    Ok(run(token, group, threads, &OpenGate))
}

// The programs of the parts, in their order.
fn programs_of(alloc: Global, parts: Vec<Part>) -> Result<Vec<Degrees>, OutOfMemory>
    ensures count { IfOk result (λ programs. length programs.items ≡ length parts.items) }
    ensures each { IfOk result (λ programs. Each (λ rank p. (part : Portion) → slice_get parts.items rank ≡ Some part → IsProgramOf part p) programs.items) }
{
    let mut programs = Vec::new(alloc);
    for part in parts {
        let Ok(()) = programs.push(Degrees::new(&part)) else {
            return Err(OutOfMemory);
        };
    }
    Ok(programs)
}
