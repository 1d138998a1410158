//! Measures how long a graph file takes to be read, and its graph to be divided among ranks.
//!
//!     pg_bench FILE RANKS block|random
//!
//! prints how many arcs, ghosts and holders the ranks have together, and on standard error the milliseconds of
//! reading and of dividing. And it measures how long messages take between ranks:
//!
//!     pg_bench traffic RANKS ROUNDS
//!
//! lets each rank send one item and one mark to every other in each round, all on one thread. It prints how many
//! messages were sent, and on standard error the milliseconds of the run. And it measures property maps:
//!
//!     pg_bench cells FILE RANKS
//!
//! divides the graph in blocks, puts a value to each cell of every rank's map, and synchronizes with forward and
//! backward. It prints how many cells there are, and on standard error the milliseconds of filling and synchronizing.
//! And it measures the algorithms on ranks:
//!
//!     pg_bench relax FILE bfs|sssp|components RANKS THREADS [DELTA]
//!     pg_bench forest FILE RANKS THREADS
//!     pg_bench colour FILE RANKS THREADS
//!
//! divides the graph in blocks and relaxes from vertex 1, or from each vertex for components, with buckets of width
//! DELTA, or 32, for sssp; or grows a least spanning forest; or colours. It prints how many messages were sent, how
//! many of them were items, or offers, and not marks, and how many ghosts the ranks have together, edges the forest or
//! colours the colouring; and on standard error the milliseconds of reading, of dividing together with making the
//! programs, and of running.
#![tactic(auto)]

ghost use Rattle.std.specs.Prelude.{◌≡◌};

mod agendas;
mod chosen;
mod counted;
mod groups;
mod jobs;
mod layouts;
mod loading;
mod makers;
mod running;
mod sites;
#[cfg(test)]
mod tests;
mod totals;
mod traffic;

use jobs::{Division, Job, Traffic};
use layouts::{Layout, random_owners};
use loading::{Loaded, load, load_timed};
use pg_adj::split;
use pg_base::{EdgeList, OpenGate, Ranks};
use pg_dist::{Block, Distribution, Listed};
use pg_lane::RingLanes;
use pg_run::run;
use running::measure_run;
use sites::{blocks, sites_of, synchronize};
use std::io::ErrorKind;
use std::num::NonZeroU32;
use std::rt::Clock;
use std::sync::Wait;
use std::thread::Threads;
use std::time::{Duration, Instant};
use std::{env, io};
use totals::{Totals, cell_count};
use traffic::{group_of_rolls, message_count};

fn main(rt: HostRuntime) -> io::Result<()> {
    let words = words(&rt)?;
    match Job::of_words(&words) {
        Some(Job::Divide(division)) => measure_division(&rt, &rt, division),
        Some(Job::Send(traffic)) => measure_traffic(&rt, traffic),
        Some(Job::Synchronize(map)) => {
            let graph = load(&rt, &rt, NonZeroU32::MIN, map.file)?;
            measure_map(&rt, &graph, map.ranks)
        }
        Some(Job::Run(job)) => {
            let loaded = load_timed(&rt, &rt, job.crew.threads, job.file)?;
            measure_run(&rt, loaded, job.algorithm, job.crew)
        }
        None => Err(io::Error::new(
            ErrorKind::InvalidInput,
            "the words are FILE RANKS block|random, traffic RANKS ROUNDS, cells FILE RANKS, relax FILE bfs|sssp|components RANKS THREADS [DELTA], forest FILE RANKS THREADS or colour FILE RANKS THREADS",
        )),
    }
}

// The words after the program's name.
fn words(rt: &HostRuntime) -> io::Result<Vec<String>> {
    let mut words = Vec::new(rt.alloc());
    for word in env::args(rt)?.skip(1) {
        words.push(word)?;
    }
    Ok(words)
}

// Reads, divides, and prints what came of it and how long it took.
fn measure_division<W: Threads + Sync>(
    token: &W,
    rt: &HostRuntime,
    job: Division<'_>,
) -> io::Result<()> {
    let Loaded { graph, reading } = load_timed(token, rt, NonZeroU32::MIN, job.file)?;
    match job.layout {
        Layout::Block => {
            let dist = Block::new(graph.n(), job.ranks);
            divide(rt, &graph, &dist, reading)
        }
        Layout::Random => {
            let owners = random_owners(rt.alloc(), graph.n(), job.ranks)?;
            let dist = Listed::new(rt.alloc(), owners, job.ranks).map_err(
                |_| ErrorKind::OutOfMemory,
            )?;
            divide(rt, &graph, &dist, reading)
        }
    }
}

// Divides, and prints what came of it and how long it took, and the reading before it.
fn divide<D: Distribution>(
    rt: &HostRuntime,
    graph: &EdgeList,
    dist: &D,
    reading: Duration,
) -> io::Result<()>
    requires { graph.now.n ≡ (D.sharing dist.now).n }
{
    let start = Instant::now(rt)?;
    let parts = split(rt.alloc(), graph, dist).map_err(|_| ErrorKind::OutOfMemory)?;
    let dividing = start.elapsed(rt)?;
    let totals = Totals::of_parts(&parts);
    println!(rt;
        "{} arcs, {} ghosts, {} holders",
        totals.arcs, totals.ghosts, totals.holders
    )?;
    eprintln!(rt;
        "{} ms reading, {} ms dividing",
        reading.as_millis(),
        dividing.as_millis()
    )
}

// Runs the rolls of a group, and prints how many messages they sent and how long it took.
fn measure_traffic<R: Threads + Wait + Sync + Clock + Print + Eprint + AllocGlobal + Copy + Send>(
    rt: &R,
    job: Traffic,
) -> io::Result<()> {
    let Ok(group) = group_of_rolls(rt.alloc(), job) else {
        return Err(ErrorKind::OutOfMemory.into());
    };
    let start = Instant::now(rt)?;
    let finished = run(rt, group, 1, &OpenGate);
    let running = start.elapsed(rt)?;
    println!(rt; "{} messages", message_count(&finished.lanes))?;
    eprintln!(rt; "{} ms", running.as_millis())
}

// Fills and synchronizes a property map of so many ranks, and prints how many cells it has and how long it took.
fn measure_map<R: Threads + Sync + Clock + Print + Eprint + AllocGlobal + Copy + Send>(
    rt: &R,
    graph: &EdgeList,
    ranks: Ranks,
) -> io::Result<()> {
    let Ok(parts) = blocks(rt, rt.alloc(), NonZeroU32::MIN, graph, ranks) else {
        return Err(ErrorKind::OutOfMemory.into());
    };
    let Ok(mut sites) = sites_of::<RingLanes>(&(), rt.alloc(), &parts, ranks) else {
        return Err(ErrorKind::OutOfMemory.into());
    };
    let start = Instant::now(rt)?;
    synchronize(&mut sites).map_err(|_| ErrorKind::Other)?;
    let running = start.elapsed(rt)?;
    println!(rt; "{} cells", cell_count(&parts))?;
    eprintln!(rt; "{} ms", running.as_millis())
}
