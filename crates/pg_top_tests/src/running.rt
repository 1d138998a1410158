//! What the tests run: the program over sources and sinks in memory.

use pg_base::{Gate, OpenGate, Status};
use pg_outside::{MemoryInputs, MemorySink};
use pg_top::command;
use std::alloc::{AllocGlobal, Global};
use std::sync::Wait;
use std::test::Fail;
use std::thread::Threads;

/// More than any text of these tests.
pub(crate) const ROOM: usize = 1_048_576;

pub(crate) const PATH: &str = "3 2\n2\n1 3\n2\n";

pub(crate) const MESH: &str = "7 11\n5 3 2\n1 3 4\n5 4 2 1\n2 3 6 7\n1 3 6\n5 4 7\n6 4\n";

pub(crate) const STAR: &str = "6 5\n2 3 4 5 6\n1\n1\n1\n1\n1\n";

pub(crate) const WEIGHTED: &str = "4 2 1\n2 5\n1 5 3 2\n2 2\n\n";

pub(crate) const LONG_PATH: &str = "6 5\n2\n1 3\n2 4\n3 5\n4 6\n5\n";

/// The weights 5 and 2 in a row, and a vertex of its own, by `sssp` from 1.
pub(crate) const WEIGHTS: &str = "0\n5\n7\n-\n";

/// Its forest.
pub(crate) const FOREST: &str = "1 2 5\n2 3 2\ntotal 7\n";

/// What a run over one file with the name `B` left.
#[derive(Drop)]
pub(crate) struct Seen {
    pub(crate) status: Status,
    pub(crate) out: MemorySink,
    pub(crate) errs: MemorySink,
}

pub(crate) fn texts(alloc: Global, words: &[&str]) -> Result<Vec<String>, Fail> {
    let mut texts = Vec::new(alloc);
    for word in words {
        texts.push(String::from_str(alloc, word)?)?;
    }
    Ok(texts)
}

/// Runs the words over the files, which come in pieces; the calls of these numbers fail.
pub(crate) fn run_over<W: Threads + Wait + Sync + AllocGlobal, G: Gate>(
    rt: &W,
    words: &[&str],
    named: &[(&str, &str)],
    failing_reads: Vec<u64>,
    failing_writes: Vec<(u64, usize)>,
    gate: &G,
) -> Result<Seen, Fail> {
    let alloc = rt.alloc();
    let mut files = Vec::new(alloc);
    for (name, text) in named {
        files.push((
            String::from_str(alloc, name)?,
            Vec::from_slice(alloc, text.as_bytes())?,
        ))?;
    }
    let mut inputs = MemoryInputs::new(files, 1, failing_reads);
    let mut out = MemorySink::new(alloc, ROOM, failing_writes)?;
    let mut errs = MemorySink::new(alloc, ROOM, Vec::new(alloc))?;
    let words = texts(alloc, words)?;
    let answer = command(rt, alloc, &words, &mut inputs, &mut out, &mut errs, gate);
    let status = answer.status;
    Ok(Seen { status, out, errs })
}

/// Runs the words over the file with the name `B`.
pub(crate) fn run<W: Threads + Wait + Sync + AllocGlobal>(
    rt: &W,
    words: &[&str],
    file: &str,
    failing_reads: Vec<u64>,
    failing_writes: Vec<(u64, usize)>,
) -> Result<Seen, Fail> {
    run_over(
        rt,
        words,
        &[("B", file)],
        failing_reads,
        failing_writes,
        &OpenGate,
    )
}

/// Runs a search of the file from this source, with nothing failing.
pub(crate) fn search<W: Threads + Wait + Sync + AllocGlobal>(
    rt: &W,
    file: &str,
    source: &str,
) -> Result<Seen, Fail> {
    let alloc = rt.alloc();
    let words = ["bfs", "B", "--source", source];
    run(rt, &words, file, Vec::new(alloc), Vec::new(alloc))
}

/// The words of a line, which has a space after each.
pub(crate) fn words_of<'a>(alloc: Global, line: &'a str) -> Result<Vec<&'a str>, Fail> {
    let mut words = Vec::new(alloc);
    for word in line.split_terminator(' ') {
        words.push(word)?;
    }
    Ok(words)
}
