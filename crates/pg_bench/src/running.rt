//! Runs of programs over the ranks of a divided graph, with how long each phase took.
ghost use Rattle.std.specs.Prelude.{◌≤◌, IfOk, length};
ghost use Rattle.pg_adj.specs.Portions.{Portion};
ghost use Rattle.pg_bench.specs.Divisions.{HasEdgesBelow};

use crate::agendas::{Agendas, ByBucket, ByLevel};
use crate::chosen::{colour_count, edge_count};
use crate::counted::{Counted, item_count};
use crate::groups::group_of;
use crate::jobs::{Algorithm, Crew};
use crate::loading::Loaded;
use crate::makers::{Colourings, Forests, Maker, Relaxations};
use crate::sites::blocks;
use crate::totals::ghost_count;
use crate::traffic::message_count;
use pg_agenda::Agenda;
use pg_base::OpenGate;
use pg_group::Program;
use pg_label::{Hops, Label, Root, Weight};
use pg_relax::Relax;
use pg_run::run;
use std::io;
use std::io::ErrorKind;
use std::rt::Clock;
use std::sync::Wait;
use std::thread::Threads;
use std::time::{Duration, Instant};

// The programs that a run left, and what was counted and timed of it.
#[derive(Drop)]
struct Ran<P> {
    programs: Vec<Counted<P>>,
    figures: Figures,
}

// How many messages were sent, how many of them were items, how many ghosts the ranks had together, and how long it
// took to read the graph, to divide it with making the programs, and to run them.
#[derive(Clone, Copy, Debug)]
struct Figures {
    messages: u64,
    items: u64,
    ghosts: u64,
    reading: Duration,
    dividing: Duration,
    running: Duration,
}

// Where the algorithms that have a source begin.
const SOURCE: u32 = 1;

/// Runs the algorithm, and prints what came of it and how long it took, and the reading before it.
pub fn measure_run<R: Threads + Wait + Sync + Clock + Print + Eprint + AllocGlobal + Copy + Send>(
    rt: &R,
    loaded: Loaded,
    algorithm: Algorithm,
    crew: Crew,
) -> io::Result<()> {
    match algorithm {
        Algorithm::Bfs => relax(rt, loaded, crew, Hops { source: SOURCE }, ByLevel),
        Algorithm::Sssp(delta) => {
            let buckets = ByBucket { delta: delta.get() };
            relax(rt, loaded, crew, Weight { source: SOURCE }, buckets)
        }
        Algorithm::Components => relax(rt, loaded, crew, Root, ByLevel),
        Algorithm::Forest => grow(rt, loaded, crew),
        Algorithm::Colour => colour(rt, loaded, crew),
    }
}

// Relaxes, and prints what came of it.
fn relax<
    R: Threads + Wait + Sync + Clock + Print + Eprint + AllocGlobal + Copy + Send,
    L: Label + Copy + Send + Drop,
    A: Agenda + Send + Drop,
    M: Agendas<A> + Drop,
>(rt: &R, loaded: Loaded, crew: Crew, label: L, agendas: M) -> io::Result<()> {
    let maker = Relaxations { label, agendas };
    let ran = run_over::<R, Relax<L, A>, Relaxations<L, M>>(rt, loaded, crew, &maker)?;
    tell(rt, ran.figures, "offers", ran.figures.ghosts, "ghosts")
}

// Grows a forest, and prints what came of it.
fn grow<R: Threads + Wait + Sync + Clock + Print + Eprint + AllocGlobal + Copy + Send>(
    rt: &R,
    loaded: Loaded,
    crew: Crew,
) -> io::Result<()> {
    let edges = loaded.graph.edges().len() as u32;
    let ran = run_over(rt, loaded, crew, &Forests { edges })?;
    let Ok(chosen) = edge_count(rt.alloc(), &ran.programs) else {
        return Err(ErrorKind::OutOfMemory.into());
    };
    tell(rt, ran.figures, "items", chosen, "edges")
}

// Colours, and prints what came of it.
fn colour<R: Threads + Wait + Sync + Clock + Print + Eprint + AllocGlobal + Copy + Send>(
    rt: &R,
    loaded: Loaded,
    crew: Crew,
) -> io::Result<()> {
    let ran = run_over(rt, loaded, crew, &Colourings)?;
    let colours = colour_count(&ran.programs);
    tell(rt, ran.figures, "items", colours, "colours")
}

// Divides the graph in blocks, makes a program of each part, and runs them.
fn run_over<
    R: Threads + Wait + Sync + Clock + AllocGlobal + Copy + Send,
    P: Program + Send + Drop,
    M: Maker<P>,
>(rt: &R, loaded: Loaded, crew: Crew, maker: &M) -> io::Result<Ran<P>>
    requires { (part : Portion) → HasEdgesBelow (length loaded.graph.edges) part → M.Takes maker.now part }
    ensures { IfOk result (λ ran. 1 ≤ length ran.programs.items) }
{
    let Loaded { graph, reading } = loaded;
    let start = Instant::now(rt)?;
    let Ok(parts) = blocks(rt, rt.alloc(), crew.threads, &graph, crew.ranks) else {
        return Err(ErrorKind::OutOfMemory.into());
    };
    drop(graph);
    let ghosts = ghost_count(&parts);
    let Ok(group) = group_of::<P, M>(rt.alloc(), parts, maker) else {
        return Err(ErrorKind::OutOfMemory.into());
    };
    let dividing = start.elapsed(rt)?;
    let start = Instant::now(rt)?;
    let finished = run(rt, group, crew.threads.get(), &OpenGate);
    let running = start.elapsed(rt)?;
    Ok(Ran {
        figures: Figures {
            messages: message_count(&finished.lanes),
            items: item_count(&finished.programs),
            ghosts,
            reading,
            dividing,
            running,
        },
        programs: finished.programs,
    })
}

// Prints how many messages were sent and how many of them were items, how many there are of what was counted, and how
// long the phases took.
fn tell<R: Print + Eprint>(
    rt: &R,
    figures: Figures,
    items: &str,
    count: u64,
    counted: &str,
) -> io::Result<()> {
    println!(rt;
        "{} messages, {} {}, {} {}",
        figures.messages, figures.items, items, count, counted
    )?;
    eprintln!(rt;
        "{} ms reading, {} ms dividing, {} ms running",
        figures.reading.as_millis(),
        figures.dividing.as_millis(),
        figures.running.as_millis()
    )
}
