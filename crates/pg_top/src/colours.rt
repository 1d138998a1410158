//! Boman's colouring over the ranks of a divided graph.
ghost use Rattle.std.specs.Prelude.{◌≡◌, ◌<◌, ◌≤◌, All, IfOk, length, map, vec_len};
ghost use Rattle.std.specs.Option.{ForSome, option_map};
ghost use Rattle.pg_group.specs.Entries.{Each};
ghost use Rattle.pg_dist.specs.Sharing.{IsSharing};
ghost use Rattle.pg_print.specs.Columns.{column_text};
ghost use Rattle.pg_colour.specs.Shown.{IsNewColouring, part_in, state_of};
ghost use Rattle.pg_colour.specs.Whole.{colour_in};
ghost use Rattle.pg_top.specs.Coloured.{AreHeld, HavePlaces, IsColouring, IsColouringOver};
ghost use Rattle.pg_top.specs.Relaxed.{AreInOrder};
ghost use Rattle.pg_top.specs.Text.{IsColourText};
ghost use Rattle.pg_top.specs.Work.{HasColours, IsColouredBy, SpellsColours};

use crate::columns::Numbers;
use crate::crews::Crew;
use crate::inputs::Input;
use pg_adj::{Part, split_on_threads};
use pg_base::{EdgeList, Gate, OutOfMemory, Vertex};
use pg_colour::Colouring;
use pg_dist::{Block, Distribution, Listed};
use pg_lane::RingLanes;
use pg_run::{Finished, assemble, run};
use std::alloc::Global;
use std::sync::Wait;
use std::thread::Threads;

/// Colours by vertex, and the programs and lanes that ended with them.
#[derive(Drop)]
pub(crate) struct Coloured {
    pub(crate) colours: Numbers,
    pub(crate) finished: Finished<Colouring>,
}

/// The programs of the parts, in their order.
fn programs_of(alloc: Global, mut parts: Vec<Part>) -> Result<Vec<Colouring>, OutOfMemory>
    ensures parts { IfOk result (λ programs. map part_in programs.items ≡ parts.items) }
    ensures new { IfOk result (λ programs. Each (λ rank p. IsNewColouring p) programs.items) }
{
    let Ok(mut programs) = Vec::with_capacity(alloc, parts.len()) else {
        return Err(OutOfMemory);
    };
    while let Some(part) = parts.pop() {
        programs.push_reserved(Colouring::new(alloc, part)?);
    }
    programs.reverse();
    Ok(programs)
}

/// Colours the parts, one of each rank, until all ranks have ended.
fn colour_parts<W: Threads + Wait + Sync, G: Gate>(
    token: &W,
    alloc: Global,
    parts: Vec<Part>,
    crew: &Crew,
    gate: &G,
) -> Result<Finished<Colouring>, OutOfMemory>
    requires at_least_one { 1 ≤ length parts.items }
    requires at_most { length parts.items ≤ 32 }
    requires order { AreInOrder parts.items }
    ensures { IfOk result (λ f. IsColouringOver (length parts.items) parts.items crew.now.capacity f.programs.items f.lanes.items) }
{
    let programs = programs_of(alloc, parts)?;
    let group = assemble::<Colouring, RingLanes>(&(), alloc, programs, crew.capacity)?;
    Ok(run(token, group, crew.threads, gate))
}

/// Divides the graph as `dist` says, and colours it over the ranks until all have ended. The graph is freed once it is divided.
fn colour<W: Threads + Wait + Sync, D: Distribution + Sync, G: Gate>(
    token: &W,
    alloc: Global,
    graph: EdgeList,
    dist: &D,
    crew: &Crew,
    gate: &G,
) -> Result<Finished<Colouring>, OutOfMemory>
    requires n { graph.n ≡ (D.sharing dist.now).n }
    ensures laws { IsSharing (D.sharing dist.now) }
    ensures coloured { IfOk result (λ f. IsColouring (D.sharing dist.now) graph crew.now.capacity f.programs.items f.lanes.items) }
{
    let _ranks = dist.ranks();
    let parts = split_on_threads(token, alloc, crew.threads, &graph, dist)?;
    drop(graph);
    colour_parts(token, alloc, parts, crew, gate)
}

/// The colour of an own vertex.
fn colour_at(program: &Colouring, place: u32) -> Option<u64>
    requires { place < length (part_in program.now).vertices }
    ensures { result ≡ colour_in ((state_of program.now).own place) }
{
    match program.colour(place) {
        Some(colour) => Some(u64::from(colour)),
        None => None,
    }
}

/// The colour that the programs ended with for each vertex from 1 to n, as the vertex's owner has it at the vertex's place.
fn colours_of<D: Distribution>(
    alloc: Global,
    programs: &[Colouring],
    dist: &D,
) -> Result<Numbers, OutOfMemory>
    requires ranks { length programs.now ≡ (D.sharing dist.now).ranks }
    requires places { HavePlaces (D.sharing dist.now) programs.now }
    ensures { IfOk result (λ colours. AreHeld (D.sharing dist.now) programs.now colours.of_vertices.items) }
{
    let n = dist.n();
    let Ok(mut of_vertices) = Vec::with_capacity(alloc, n as usize) else {
        return Err(OutOfMemory);
    };
    for place in 0..n {
        let v = Vertex(place + 1);
        let program = &programs[dist.owner(v).0 as usize];
        of_vertices.push_reserved(colour_at(program, dist.local(v)));
    }
    Ok(Numbers { of_vertices })
}

/// Colours the graph over the ranks among which `dist` divides it.
fn colour_over<W: Threads + Wait + Sync, D: Distribution + Sync, G: Gate>(
    token: &W,
    alloc: Global,
    graph: EdgeList,
    dist: &D,
    crew: &Crew,
    gate: &G,
) -> Result<Coloured, OutOfMemory>
    requires n { graph.n ≡ (D.sharing dist.now).n }
    ensures laws { IsSharing (D.sharing dist.now) }
    ensures coloured { IfOk result (λ c. IsColouring (D.sharing dist.now) graph crew.now.capacity c.finished.programs.items c.finished.lanes.items) }
    ensures held { IfOk result (λ c. AreHeld (D.sharing dist.now) c.finished.programs.items c.colours.of_vertices.items) }
{
    let finished = colour(token, alloc, graph, dist, crew, gate)?;
    let colours = colours_of(alloc, &finished.programs, dist)?;
    Ok(Coloured { colours, finished })
}

/// Colours the graph over the ranks that own the vertices: by the list of owners, or in blocks where there is none.
fn colour_input<W: Threads + Wait + Sync, G: Gate>(
    token: &W,
    alloc: Global,
    input: Input,
    crew: &Crew,
    gate: &G,
) -> Result<Coloured, OutOfMemory>
    requires each { ForSome input.owners (λ owners. vec_len owners ≡ input.graph.n) }
    requires are_ranks { ForSome input.owners (λ owners. All (λ owner. owner < crew.now.ranks) owners.items) }
    ensures { IfOk result (λ c. IsColouredBy (option_map (λ owners. owners.items) input.owners) crew.now.ranks crew.now.capacity input.graph c.colours.of_vertices.items
        c.finished.programs.items c.finished.lanes.items) }
{
    let Input { graph, owners } = input;
    match owners {
        Some(owners) => {
            let dist = Listed::new(alloc, owners, crew.ranks)?;
            colour_over(token, alloc, graph, &dist, crew, gate)
        }
        None => {
            let dist = Block::new(graph.n(), crew.ranks);
            colour_over(token, alloc, graph, &dist, crew, gate)
        }
    }
}

/// Proper colours, numbered from 0, on one rank those of first fit. `Err` says that the run is out of memory.
pub(crate) fn proper_colours<W: Threads + Wait + Sync, G: Gate>(
    token: &W,
    alloc: Global,
    input: Input,
    crew: &Crew,
    gate: &G,
) -> Result<Coloured, OutOfMemory>
    requires each { ForSome input.owners (λ owners. vec_len owners ≡ input.graph.n) }
    requires are_ranks { ForSome input.owners (λ owners. All (λ owner. owner < crew.now.ranks) owners.items) }
    ensures has { IfOk result (λ c. HasColours (option_map (λ owners. owners.items) input.owners) crew.now.ranks crew.now.capacity input.graph c.colours.of_vertices.items
        c.finished.programs.items c.finished.lanes.items) }
    ensures right { IfOk result (λ c. IsColourText crew.now.ranks input.graph (column_text c.colours.of_vertices.items)) }
    ensures spells { IfOk result (λ c. SpellsColours (option_map (λ owners. owners.items) input.owners) crew.now.ranks crew.now.capacity input.graph (column_text c.colours.of_vertices.items)
        c.finished.programs.items c.finished.lanes.items) }
{
    let _n = input.graph.n();
    let _ranks = crew.ranks.count();
    colour_input(token, alloc, input, crew, gate)
}
