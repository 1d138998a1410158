//! Reading a graph file, with the time that it took.
use pg_base::EdgeList;
use pg_metis::{GraphFault, read_graph_on_threads};
use pg_outside::{FileInputs, Inputs};
use std::io;
use std::io::ErrorKind;
use std::num::NonZeroU32;
use std::thread::Threads;
use std::time::{Duration, Instant};

/// A graph, and how long it took to be read.
#[derive(Drop)]
pub struct Loaded {
    /// The graph.
    pub graph: EdgeList,
    /// How long reading took.
    pub reading: Duration,
}

/// The graph of the file of this name, read by at most so many threads, with the time that reading took.
pub fn load_timed<W: Threads + Sync>(
    token: &W,
    rt: &HostRuntime,
    threads: NonZeroU32,
    file: &str,
) -> io::Result<Loaded> {
    let start = Instant::now(rt)?;
    let graph = load(token, rt, threads, file)?;
    let reading = start.elapsed(rt)?;
    Ok(Loaded { graph, reading })
}

/// The graph of the file of this name, read by at most so many threads. `NotFound`: the file can't be opened. `InvalidData`: it is no graph file.
/// `Other`: a read failed. `OutOfMemory`: an allocation was refused.
pub fn load<W: Threads + Sync>(
    token: &W,
    rt: &HostRuntime,
    threads: NonZeroU32,
    file: &str,
) -> io::Result<EdgeList> {
    let mut inputs = FileInputs::new(rt);
    inputs.begin(file).map_err(|_| ErrorKind::NotFound)?;
    match read_graph_on_threads(token, rt.alloc(), threads.get(), &mut inputs) {
        Ok(graph) => Ok(graph),
        Err(GraphFault::Refused { .. }) => Err(ErrorKind::InvalidData.into()),
        Err(GraphFault::Failed) => Err(ErrorKind::Other.into()),
        Err(GraphFault::OutOfMemory) => Err(ErrorKind::OutOfMemory.into()),
    }
}
