//! A graph file whose lines of vertices are looked at in batches, by several threads.

ghost use Rattle.std.specs.Prelude.{◌≡◌, ◌≤◌, [], Some, None, IsTrue, IfOk, OnOk, IfSome};
ghost use Rattle.pg_outside.specs.Faults.{Rose};
ghost use Rattle.pg_metis.specs.Ahead.{content_ahead};
ghost use Rattle.pg_metis.specs.Answers.{OnFailed, OnRefused};
ghost use Rattle.pg_metis.specs.Fault.{body_fault, fault_of};
ghost use Rattle.pg_metis.specs.Headers.{header_in};
ghost use Rattle.pg_metis.specs.PieceReading.{ReadsPieceBody, ReadsPieceFile};
ghost use Rattle.pg_metis.specs.Pieces.{ArePieceRowsOf};

use crate::batches::{PieceRows, read_rows_in_batches};
use crate::headers::Header;
use crate::pieces::Pieces;
use crate::reading::{read_end, read_header};
use crate::{GraphFault, MAX_FILE_BYTES};
use pg_outside::Inputs;
use pg_text::LineReader;
use std::alloc::Global;
use std::thread::Threads;

/// What is known from the lines of a file, before they are held against one another.
#[derive(Drop)]
pub(crate) struct PieceFile {
    pub header: Header,
    /// The number of the header's line.
    pub header_line: u64,
    pub rows: PieceRows,
}

/// Nothing is known from any line yet. Has memory for the numbers of all lines.
fn no_rows(alloc: Global, header: Header) -> Result<PieceRows, GraphFault>
    ensures ok { IfOk result (λ rows. ArePieceRowsOf (header_in header) 0 rows []) }
    ensures refused { OnRefused result (λ _. ⊥) }
    ensures failed { OnFailed result ⊥ }
{
    let numbers = Vec::with_capacity(alloc, header.n as usize)?;
    let pieces = Pieces::new(alloc, 2 * header.m as usize);
    Ok(PieceRows { numbers, pieces })
}

/// Takes all that follows the header. The lines of the vertices are taken in batches of about `room` bytes, by at most
/// `threads` threads.
fn read_body_in_batches<R: Threads + Sync, I: Inputs>(
    token: &R,
    alloc: Global,
    threads: usize,
    room: usize,
    reader: &mut LineReader,
    inputs: &mut I,
    header: Header,
) -> Result<PieceRows, GraphFault>
    requires begun { IsTrue (I.begun inputs.old) }
    requires threads { 1 ≤ threads }
    requires room { 1 ≤ room }
    ensures later { I.faults inputs.old ≤ I.faults inputs.new }
    ensures begun { I.begun inputs.new ≡ I.begun inputs.old }
    ensures files { I.files inputs.new ≡ I.files inputs.old }
    ensures ok { IfOk result (λ rows. ReadsPieceBody (header_in header) rows (content_ahead reader.old (I.left inputs.old))) }
    ensures end { OnOk result (IfSome (content_ahead reader.old (I.left inputs.old)) (λ _. I.left inputs.new ≡ Some [])) }
    ensures refused { OnRefused result (λ fault. IfSome (content_ahead reader.old (I.left inputs.old)) (λ was. body_fault (header_in header) 1 was ≡ Some fault)) }
    ensures failed { OnFailed result (Rose (I.faults inputs.old) (I.faults inputs.new)) }
{
    let mut rows = no_rows(alloc, header)?;
    read_rows_in_batches(
        token, alloc, threads, room, reader, inputs, header, &mut rows,
    )?;
    read_end(reader, inputs)?;
    Ok(rows)
}

/// Reads the name that was begun last to its end, with the lines of the vertices in batches of about `room` bytes, by at
/// most `threads` threads. Answers the first fault of a line where there is one.
pub(crate) fn read_file_in_batches<R: Threads + Sync, I: Inputs>(
    token: &R,
    alloc: Global,
    threads: usize,
    room: usize,
    inputs: &mut I,
) -> Result<PieceFile, GraphFault>
    requires begun { IsTrue (I.begun inputs.old) }
    requires threads { 1 ≤ threads }
    requires room { 1 ≤ room }
    ensures later { I.faults inputs.old ≤ I.faults inputs.new }
    ensures files { I.files inputs.new ≡ I.files inputs.old }
    ensures ok { IfOk result (λ file. ReadsPieceFile file (I.left inputs.old)) }
    ensures end { OnOk result (IfSome (I.left inputs.old) (λ _. I.left inputs.new ≡ Some [])) }
    ensures refused { OnRefused result (λ fault. IfSome (I.left inputs.old) (λ text. fault_of text ≡ Some fault)) }
    ensures failed { OnFailed result (Rose (I.faults inputs.old) (I.faults inputs.new)) }
{
    let mut reader = LineReader::new(alloc, MAX_FILE_BYTES)?;
    let header = read_header(&mut reader, inputs)?;
    let header_line = reader.line_number();
    let rows = read_body_in_batches(token, alloc, threads, room, &mut reader, inputs, header)?;
    Ok(PieceFile {
        header,
        header_line,
        rows,
    })
}
