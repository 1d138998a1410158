//! Whole runs that find the greatest degree among each vertex's neighbours.
ghost use Rattle.std.specs.Prelude.{◌≡◌, ℕ, ◌≤◌, ◌<◌, IfOk, Some, length, slice_get};
ghost use Rattle.pg_group.specs.Entries.{Each};
ghost use Rattle.pg_adj.specs.Portions.{Portion};
ghost use Rattle.pg_uses.specs.Neighbours.{AreNeighbourDegrees};
ghost use Rattle.pg_uses.specs.Runs.{AreInOrder};
ghost use Rattle.pg_uses.specs.Synchronizing.{IsMapOf, part_in};
ghost use Rattle.pg_uses.specs.MapRuns.{HoldsDegrees, IsMapRun, IsMapRunOver, KnowsNeighbours};

use crate::NeighbourDegrees;
use pg_adj::{Part, split};
use pg_base::{EdgeList, OpenGate, OutOfMemory, Ranks, Vertex};
use pg_dist::{Block, Distribution};
use pg_lane::RingLanes;
use pg_run::{Finished, assemble, run};
use std::alloc::Global;
use std::sync::Wait;
use std::thread::Threads;

/// For each vertex of the graph, in order, the greatest degree among its neighbours, 0 where it has none: that of `v`
/// is the item `v - 1`. It is found by this many ranks, among which the vertices are divided in blocks. The ranks are
/// driven by `threads` threads, and a lane holds `capacity` messages, 1 to 1024. `OutOfMemory` comes only where an
/// allocation is refused.
pub fn neighbour_degrees<W: Threads + Wait + Sync>(
    token: &W,
    alloc: Global,
    graph: &EdgeList,
    ranks: Ranks,
    threads: u32,
    capacity: u32,
) -> Result<Vec<u64>, OutOfMemory>
    requires threads { 1 ≤ threads }
    requires capacity_at_least { 1 ≤ capacity }
    requires capacity_at_most { capacity ≤ 1024 }
    ensures { IfOk result (λ degrees. AreNeighbourDegrees graph.now degrees.items) }
{
    let dist = Block::new(graph.n(), ranks);
    neighbour_degrees_over(token, alloc, graph, &dist, threads, capacity)
}

/// The same by the ranks of a distribution, which says which rank owns each vertex.
pub fn neighbour_degrees_over<W: Threads + Wait + Sync, D: Distribution>(
    token: &W,
    alloc: Global,
    graph: &EdgeList,
    dist: &D,
    threads: u32,
    capacity: u32,
) -> Result<Vec<u64>, OutOfMemory>
    requires n { graph.now.n ≡ (D.sharing dist.now).n }
    requires threads { 1 ≤ threads }
    requires capacity_at_least { 1 ≤ capacity }
    requires capacity_at_most { capacity ≤ 1024 }
    ensures { IfOk result (λ degrees. AreNeighbourDegrees graph.now degrees.items) }
{
    let finished = run_neighbour_degrees(token, alloc, graph, dist, threads, capacity)?;
    degrees_by_vertex(alloc, graph, dist, &finished.programs)
}

/// Divides the graph and runs a program for each rank until all have ended. Every cell of each of them, also that of a
/// ghost, holds the degree of its vertex then. The programs and the lanes come back: every message was taken, and each
/// program has kept its promise. `OutOfMemory` comes only where an allocation is refused.
pub fn run_neighbour_degrees<W: Threads + Wait + Sync, D: Distribution>(
    token: &W,
    alloc: Global,
    graph: &EdgeList,
    dist: &D,
    threads: u32,
    capacity: u32,
) -> Result<Finished<NeighbourDegrees>, OutOfMemory>
    requires n { graph.now.n ≡ (D.sharing dist.now).n }
    requires threads { 1 ≤ threads }
    requires capacity_at_least { 1 ≤ capacity }
    requires capacity_at_most { capacity ≤ 1024 }
    ensures count { IfOk result (λ f. length f.programs.items ≡ (D.sharing dist.now).ranks) }
    ensures run { IfOk result (λ f. IsMapRun (D.sharing dist.now) graph.now f.programs.items f.lanes.items) }
    ensures degrees { IfOk result (λ f. Each (λ rank p. HoldsDegrees graph.now p) f.programs.items) }
    ensures neighbours { IfOk result (λ f. Each (λ rank p. KnowsNeighbours (D.sharing dist.now) graph.now rank (part_in p)) f.programs.items) }
{
    let _n = graph.n();
    let _ranks = dist.ranks().count();
    let parts = split(alloc, graph, dist)?;
    run_over(token, alloc, parts, threads, capacity)
}

// Runs the programs of the parts, one for each rank, until all have ended.
fn run_over<W: Threads + Wait + Sync>(
    token: &W,
    alloc: Global,
    parts: Vec<Part>,
    threads: u32,
    capacity: u32,
) -> Result<Finished<NeighbourDegrees>, OutOfMemory>
    requires at_least_one { 1 ≤ length parts.items }
    requires at_most { length parts.items ≤ 32 }
    requires order { AreInOrder parts.items }
    requires threads { 1 ≤ threads }
    requires capacity_at_least { 1 ≤ capacity }
    requires capacity_at_most { capacity ≤ 1024 }
    ensures { IfOk result (λ f. IsMapRunOver parts.items f.programs.items f.lanes.items) }
{
    let programs = programs_of(alloc, parts)?;
    let group = assemble::<NeighbourDegrees, RingLanes>(&(), alloc, programs, capacity)?;
    Ok(run(token, group, threads, &OpenGate))
}

// The programs of the parts, in their order.
fn programs_of(alloc: Global, parts: Vec<Part>) -> Result<Vec<NeighbourDegrees>, OutOfMemory>
    ensures count { IfOk result (λ programs. length programs.items ≡ length parts.items) }
    ensures each { IfOk result (λ programs. Each (λ rank p. (part : Portion) → slice_get parts.items rank ≡ Some part → IsMapOf part p) programs.items) }
{
    let mut programs = Vec::new(alloc);
    for part in parts {
        let program = NeighbourDegrees::new(alloc, part)?;
        let Ok(()) = programs.push(program) else {
            return Err(OutOfMemory);
        };
    }
    Ok(programs)
}

// What the owner of each vertex answers for it, by vertex.
fn degrees_by_vertex<D: Distribution>(
    alloc: Global,
    graph: &EdgeList,
    dist: &D,
    programs: &[NeighbourDegrees],
) -> Result<Vec<u64>, OutOfMemory>
    requires n { graph.now.n ≡ (D.sharing dist.now).n }
    requires count { length programs.now ≡ (D.sharing dist.now).ranks }
    requires degrees { Each (λ rank p. HoldsDegrees graph.now p) programs.now }
    requires neighbours { Each (λ rank p. KnowsNeighbours (D.sharing dist.now) graph.now rank (part_in p)) programs.now }
    ensures { IfOk result (λ degrees. AreNeighbourDegrees graph.now degrees.items) }
{
    let mut degrees = Vec::new(alloc);
    for i in 0..graph.n() {
        let v = Vertex(i + 1);
        let program = &programs[dist.owner(v).0 as usize];
        let Ok(()) = degrees.push(program.greatest(dist.local(v))) else {
            return Err(OutOfMemory);
        };
    }
    Ok(degrees)
}
