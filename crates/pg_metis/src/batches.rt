//! The lines of a graph file's vertices, taken in batches whose lines are looked at side by side.

ghost use Rattle.std.specs.Prelude.{◌≡◌, ◌+◌, ◌<◌, ◌≤◌, ◌^◌, ◌-◌, ◌++◌, [], None, Some, IsTrue, OnOk, IfSome, All, length, map};
ghost use Rattle.pg_outside.specs.Faults.{Rose};
ghost use Rattle.pg_metis.specs.Ahead.{content_ahead};
ghost use Rattle.pg_metis.specs.Answers.{OnFailed, OnRefused};
ghost use Rattle.pg_metis.specs.Batches.{IsWithin, ReadsPieceRows, TakesBatch, TakesLines, lines_in, stopped};
ghost use Rattle.pg_metis.specs.Fault.{body_fault, lines_fault};
ghost use Rattle.pg_metis.specs.Headers.{header_in};
ghost use Rattle.pg_metis.specs.Pieces.{ArePieceRowsOf};

use crate::gathering::{Batch, LineAt, Stop, gather};
use crate::headers::Header;
use crate::parsing::parse_batch;
use crate::pieces::Pieces;
use crate::{GraphFault, Kind};
use pg_outside::Inputs;
use pg_text::LineReader;
use std::alloc::{AllocError, Global};
use std::thread::Threads;

/// What is known from the lines of the vertices so far.
#[derive(Drop)]
pub(crate) struct PieceRows {
    /// The number of each vertex's line.
    pub numbers: Vec<u64>,
    pub pieces: Pieces,
}

/// Keeps the numbers of these lines.
fn keep_numbers(lines: &[LineAt], numbers: &mut Vec<u64>) -> Result<(), AllocError>
    ensures { OnOk result (numbers.new.items ≡ numbers.old.items ++ map (λ line. line.number) lines.now) }
{
    for line in lines {
        numbers.push(line.number)?;
    }
    Ok(())
}

/// Takes the words of the lines of a batch, which follow those that were taken before.
fn take_lines<R: Threads + Sync>(
    token: &R,
    alloc: Global,
    threads: usize,
    header: Header,
    batch: &Batch,
    rows: &mut PieceRows,
) -> Result<(), GraphFault>
    requires threads { 1 ≤ threads }
    requires few { length rows.old.numbers.items + length batch.now.lines.items ≤ header.n }
    requires within { All (IsWithin (length batch.now.bytes.items)) batch.now.lines.items }
    ensures ok { OnOk result (TakesLines (header_in header) rows.old rows.new (lines_in batch.now)) }
    ensures refused { OnRefused result (λ fault. lines_fault (header_in header) (length rows.old.numbers.items + 1) (lines_in batch.now) ≡ Some fault) }
    ensures failed { OnFailed result ⊥ }
{
    let first = rows.numbers.len() as u32 + 1;
    parse_batch(
        token,
        alloc,
        threads,
        header,
        first,
        batch,
        &mut rows.pieces,
    )?;
    keep_numbers(&batch.lines, &mut rows.numbers)?;
    Ok(())
}

/// What the stop means where more lines of vertices are wanted: no fault where more may follow. So many lines were taken,
/// comments among them.
fn stopped(stop: Stop, count: u64) -> Result<(), GraphFault>
    requires few { count < 2 ^ 64 - 1 }
    ensures { result ≡ stopped stop count }
{
    match stop {
        Stop::Full => Ok(()),
        Stop::End => Err(GraphFault::Refused {
            line: count + 1,
            kind: Kind::MissingLines,
        }),
        Stop::Fault(fault) => Err(GraphFault::from(fault)),
    }
}

/// Takes the next batch of lines. What stopped it is told after the faults of its lines.
fn read_batch<R: Threads + Sync, I: Inputs>(
    token: &R,
    alloc: Global,
    threads: usize,
    room: usize,
    reader: &mut LineReader,
    inputs: &mut I,
    header: Header,
    batch: &mut Batch,
    rows: &mut PieceRows,
) -> Result<(), GraphFault>
    requires begun { IsTrue (I.begun inputs.old) }
    requires threads { 1 ≤ threads }
    requires room { 1 ≤ room }
    requires wanted { length rows.old.numbers.items < header.n }
    ensures later { I.faults inputs.old ≤ I.faults inputs.new }
    ensures begun { I.begun inputs.new ≡ I.begun inputs.old }
    ensures files { I.files inputs.new ≡ I.files inputs.old }
    ensures ok { OnOk result (TakesBatch (header_in header) rows.old rows.new (content_ahead reader.old (I.left inputs.old)) (content_ahead reader.new (I.left inputs.new))) }
    ensures refused { OnRefused result (λ fault. IfSome (content_ahead reader.old (I.left inputs.old)) (λ was. body_fault (header_in header) (length rows.old.numbers.items + 1) was ≡ Some fault)) }
    ensures failed { OnFailed result (Rose (I.faults inputs.old) (I.faults inputs.new)) }
{
    batch.clear();
    let most = header.n as usize - rows.numbers.len();
    let stop = gather(reader, inputs, most, room, batch)?;
    take_lines(token, alloc, threads, header, batch, rows)?;
    stopped(stop, reader.line_number())
}

/// Takes the lines of all vertices, in batches of about `room` bytes, by at most `threads` threads.
pub(crate) fn read_rows_in_batches<R: Threads + Sync, I: Inputs>(
    token: &R,
    alloc: Global,
    threads: usize,
    room: usize,
    reader: &mut LineReader,
    inputs: &mut I,
    header: Header,
    rows: &mut PieceRows,
) -> Result<(), GraphFault>
    requires begun { IsTrue (I.begun inputs.old) }
    requires threads { 1 ≤ threads }
    requires room { 1 ≤ room }
    requires none { ArePieceRowsOf (header_in header) 0 rows.old [] }
    ensures later { I.faults inputs.old ≤ I.faults inputs.new }
    ensures begun { I.begun inputs.new ≡ I.begun inputs.old }
    ensures files { I.files inputs.new ≡ I.files inputs.old }
    ensures ok { OnOk result (ReadsPieceRows (header_in header) header.n rows.new (content_ahead reader.old (I.left inputs.old)) (content_ahead reader.new (I.left inputs.new))) }
    ensures refused { OnRefused result (λ fault. IfSome (content_ahead reader.old (I.left inputs.old)) (λ was. body_fault (header_in header) 1 was ≡ Some fault)) }
    ensures failed { OnFailed result (Rose (I.faults inputs.old) (I.faults inputs.new)) }
{
    let mut batch = Batch::new(alloc);
    while rows.numbers.len() < header.n as usize {
        read_batch(
            token, alloc, threads, room, reader, inputs, header, &mut batch, rows,
        )?;
    }
    Ok(())
}
