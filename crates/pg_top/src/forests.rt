//! Borůvka's method over the ranks of a divided graph.
ghost use Rattle.std.specs.Prelude.{◌≡◌, ◌<◌, ◌≤◌, All, IfOk, Some, length, map, slice_get, vec_len};
ghost use Rattle.std.specs.Option.{ForSome, option_map};
ghost use Rattle.pg_base.specs.declared.TheConstants.{MAX_EDGES};
ghost use Rattle.pg_group.specs.Entries.{Each};
ghost use Rattle.pg_dist.specs.Sharing.{IsSharing};
ghost use Rattle.pg_boruvka.specs.Known.{edges_in, part_in};
ghost use Rattle.pg_boruvka.specs.Portions.{part_of};
ghost use Rattle.pg_boruvka.specs.Shown.{IsNewDense};
ghost use Rattle.pg_top.specs.Grown.{HaveEdgesBelow, IsGrowth, IsGrowthOver};
ghost use Rattle.pg_top.specs.Relaxed.{AreInOrder};
ghost use Rattle.pg_print.specs.Forests.{edges_at};
ghost use Rattle.pg_top.specs.Text.{IsForestText, IsLeastForest};
ghost use Rattle.pg_top.specs.Answered.{tree_text};
ghost use Rattle.pg_top.specs.Work.{HasForest, IsGrownBy, SpellsForest};

use crate::columns::Tree;
use crate::crews::Crew;
use crate::inputs::Input;
use crate::weights::heaviest;
use pg_adj::{Part, split_on_threads};
use pg_base::{EdgeList, Gate, OutOfMemory};
use pg_boruvka::Dense;
use pg_dist::{Block, Distribution, Listed};
use pg_lane::RingLanes;
use pg_run::{Finished, assemble, run};
use std::alloc::Global;
use std::sync::Wait;
use std::thread::Threads;

/// A least spanning forest, and the programs and lanes that ended with it.
#[derive(Drop)]
pub(crate) struct Grown {
    pub(crate) tree: Tree,
    pub(crate) finished: Finished<Dense>,
}

/// The programs of the parts, in their order, of a graph with so many edges.
fn programs_of(alloc: Global, mut parts: Vec<Part>, edges: u32) -> Result<Vec<Dense>, OutOfMemory>
    requires few { edges ≤ MAX_EDGES }
    requires below { HaveEdgesBelow edges parts.items }
    ensures parts { IfOk result (λ programs. map part_in programs.items ≡ map (part_of edges) parts.items) }
    ensures new { IfOk result (λ programs. Each (λ rank p. IsNewDense p) programs.items) }
{
    let Ok(mut programs) = Vec::with_capacity(alloc, parts.len()) else {
        return Err(OutOfMemory);
    };
    while let Some(part) = parts.pop() {
        programs.push_reserved(Dense::new(alloc, part, edges)?);
    }
    programs.reverse();
    Ok(programs)
}

/// Grows the forest over the parts of a graph with so many edges, one part of each rank, until all ranks have ended.
fn grow_parts<W: Threads + Wait + Sync, G: Gate>(
    token: &W,
    alloc: Global,
    parts: Vec<Part>,
    edges: u32,
    crew: &Crew,
    gate: &G,
) -> Result<Finished<Dense>, OutOfMemory>
    requires at_least_one { 1 ≤ length parts.items }
    requires at_most { length parts.items ≤ 32 }
    requires order { AreInOrder parts.items }
    requires few { edges ≤ MAX_EDGES }
    requires below { HaveEdgesBelow edges parts.items }
    ensures { IfOk result (λ f. IsGrowthOver edges (length parts.items) parts.items crew.now.capacity f.programs.items f.lanes.items) }
{
    let programs = programs_of(alloc, parts, edges)?;
    let group = assemble::<Dense, RingLanes>(&(), alloc, programs, crew.capacity)?;
    Ok(run(token, group, crew.threads, gate))
}

/// Divides the graph as `dist` says, and grows its forest over the ranks until all have ended.
fn grow<W: Threads + Wait + Sync, D: Distribution + Sync, G: Gate>(
    token: &W,
    alloc: Global,
    graph: &EdgeList,
    dist: &D,
    crew: &Crew,
    gate: &G,
) -> Result<Finished<Dense>, OutOfMemory>
    requires n { graph.now.n ≡ (D.sharing dist.now).n }
    ensures laws { IsSharing (D.sharing dist.now) }
    ensures grown { IfOk result (λ f. IsGrowth (D.sharing dist.now) graph.now crew.now.capacity f.programs.items f.lanes.items) }
{
    let _ranks = dist.ranks();
    let edges = graph.edges().len() as u32;
    let parts = split_on_threads(token, alloc, crew.threads, graph, dist)?;
    grow_parts(token, alloc, parts, edges, crew, gate)
}

/// Grows the forest over the ranks that own the vertices: by the list of owners, or in blocks where there is none.
fn grow_input<W: Threads + Wait + Sync, G: Gate>(
    token: &W,
    alloc: Global,
    graph: &EdgeList,
    owners: Option<Vec<u32>>,
    crew: &Crew,
    gate: &G,
) -> Result<Finished<Dense>, OutOfMemory>
    requires each { ForSome owners (λ owners. vec_len owners ≡ graph.now.n) }
    requires are_ranks { ForSome owners (λ owners. All (λ owner. owner < crew.now.ranks) owners.items) }
    ensures { IfOk result (λ f. IsGrownBy (option_map (λ owners. owners.items) owners) crew.now.ranks crew.now.capacity graph.now f.programs.items f.lanes.items) }
{
    let n = graph.n();
    match owners {
        Some(owners) => {
            let dist = Listed::new(alloc, owners, crew.ranks)?;
            grow(token, alloc, graph, &dist, crew, gate)
        }
        None => {
            let dist = Block::new(n, crew.ranks);
            grow(token, alloc, graph, &dist, crew, gate)
        }
    }
}

/// The indices, from 0, of the edges that the first program holds.
fn indices_of(alloc: Global, programs: &[Dense]) -> Result<Vec<u32>, OutOfMemory>
    requires { 1 ≤ length programs.now }
    ensures { IfOk result (λ indices. (first : Dense) → slice_get programs.now 0 ≡ Some first → indices.items ≡ edges_in first) }
{
    programs[0].edges(alloc)
}

/// The least spanning forest, which every rank holds when all have ended. `Err` says that the run is out of memory.
pub(crate) fn least_forest<W: Threads + Wait + Sync, G: Gate>(
    token: &W,
    alloc: Global,
    input: Input,
    crew: &Crew,
    gate: &G,
) -> Result<Grown, OutOfMemory>
    requires each { ForSome input.owners (λ owners. vec_len owners ≡ input.graph.n) }
    requires are_ranks { ForSome input.owners (λ owners. All (λ owner. owner < crew.now.ranks) owners.items) }
    ensures least { IfOk result (λ grown. IsLeastForest input.graph (edges_at grown.tree.graph.edges grown.tree.indices.items)) }
    ensures held { IfOk result (λ grown. HasForest (option_map (λ owners. owners.items) input.owners) crew.now.ranks crew.now.capacity input.graph (edges_at grown.tree.graph.edges grown.tree.indices.items)
        grown.finished.programs.items grown.finished.lanes.items) }
    ensures right { IfOk result (λ grown. IsForestText input.graph (tree_text grown.tree)) }
    ensures spells { IfOk result (λ grown. SpellsForest (option_map (λ owners. owners.items) input.owners) crew.now.ranks crew.now.capacity input.graph (tree_text grown.tree)
        grown.finished.programs.items grown.finished.lanes.items) }
{
    let Input { graph, owners } = input;
    let _ranks = crew.ranks.count();
    let _most = heaviest(&graph);
    let finished = grow_input(token, alloc, &graph, owners, crew, gate)?;
    let indices = indices_of(alloc, &finished.programs)?;
    Ok(Grown {
        tree: Tree { graph, indices },
        finished,
    })
}
