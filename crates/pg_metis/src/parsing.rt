//! The lines of a batch looked at side by side, by one thread for each piece of them.

ghost use Rattle.std.specs.Prelude.{◌≡◌, ◌+◌, ◌<◌, ◌≤◌, None, Some, IfOk, IfErr, OnOk, length, map, All};
ghost use Rattle.pg_metis.specs.Arcs.{Adds};
ghost use Rattle.pg_metis.specs.Answers.{OnFailed, OnRefused};
ghost use Rattle.pg_metis.specs.Batches.{IsWithin, line_of, lines_in};
ghost use Rattle.pg_metis.specs.Fault.{arcs_or_none, lines_fault, named_arcs, vertex_fault};
ghost use Rattle.pg_metis.specs.File.{line_arcs};
ghost use Rattle.pg_text.specs.Text.{words};
ghost use Rattle.pg_metis.specs.declared.parsing.PieceFault.TheVariants.{Line, OutOfMemory};
ghost use Rattle.pg_metis.specs.Headers.{header_in};
ghost use Rattle.pg_metis.specs.Parsing.{AreParsed, IsParsed, from_piece};
ghost use Rattle.pg_metis.specs.Pieces.{AddsPiece};

use crate::GraphFault;
use crate::arcs::NamedArcs;
use crate::faults::LineFault;
use crate::gathering::{Batch, LineAt};
use crate::headers::Header;
use crate::pairing::NamedArc;
use crate::pieces::Pieces;
use crate::rows::take_row;
use std::alloc::{AllocError, Global};
use std::thread::{Threads, map_chunks};

/// Why the arcs that the lines of a piece name are not known.
#[derive(Drop)]
pub(crate) enum PieceFault {
    /// This is the first fault of the piece.
    Line(LineFault),
    /// Out of memory. No clause says when it comes.
    OutOfMemory,
}

impl From<LineFault> for PieceFault {
    ghost from_gives = { λ fault gives. gives ≡ Line fault };

    fn from(fault: LineFault) -> PieceFault {
        PieceFault::Line(fault)
    }
}

impl From<PieceFault> for GraphFault {
    ghost from_gives = { λ fault gives. gives ≡ from_piece fault };

    fn from(fault: PieceFault) -> GraphFault {
        match fault {
            PieceFault::Line(fault) => fault.into(),
            PieceFault::OutOfMemory => GraphFault::OutOfMemory,
        }
    }
}

impl From<AllocError> for PieceFault {
    ghost from_gives = { λ _ fault. fault ≡ OutOfMemory };

    fn from(_error: AllocError) -> PieceFault {
        PieceFault::OutOfMemory
    }
}

/// Takes the words of the lines of a batch, the first of which is that of the vertex `first`, by at most `threads` threads.
/// Adds what they name to the pieces, in the order of the lines.
pub(crate) fn parse_batch<R: Threads + Sync>(
    token: &R,
    alloc: Global,
    threads: usize,
    header: Header,
    first: u32,
    batch: &Batch,
    pieces: &mut Pieces,
) -> Result<(), GraphFault>
    requires threads { 1 ≤ threads }
    requires first { 1 ≤ first }
    requires last { first + length batch.now.lines.items ≤ header.n + 1 }
    requires within { All (IsWithin (length batch.now.bytes.items)) batch.now.lines.items }
    ensures faultless { OnOk result (lines_fault (header_in header) first (lines_in batch.now) ≡ None) }
    ensures arcs { OnOk result (AddsPiece pieces.old (named_arcs (header_in header).format first (lines_in batch.now)) pieces.new) }
    ensures refused { OnRefused result (λ fault. lines_fault (header_in header) first (lines_in batch.now) ≡ Some fault) }
    ensures failed { OnFailed result ⊥ }
{
    let found = parse_pieces(
        token,
        alloc,
        threads,
        header,
        first,
        &batch.bytes,
        &batch.lines,
    )?;
    for piece in found {
        pieces.add(piece?)?;
    }
    Ok(())
}

/// Takes the words of all lines, the first of which is that of the vertex `first`, in pieces of them, by at most `threads`
/// threads. Answers what was found in each piece.
fn parse_pieces<R: Threads + Sync>(
    token: &R,
    alloc: Global,
    threads: usize,
    header: Header,
    first: u32,
    bytes: &[u8],
    lines: &[LineAt],
) -> Result<Vec<Result<Vec<NamedArc>, PieceFault>>, AllocError>
    requires threads { 1 ≤ threads }
    requires first { 1 ≤ first }
    requires last { first + length lines.now ≤ header.n + 1 }
    requires within { All (IsWithin (length bytes.now)) lines.now }
    ensures { IfOk result (λ found. AreParsed (header_in header) found.items first (map (line_of bytes.now) lines.now)) }
{
    let size = lines.len().div_ceil(threads).max(1);
    let parse = |start: usize, chunk: &[LineAt]| -> Result<Vec<NamedArc>, PieceFault>
        requires { (1 ≤ first) × (first + start + length chunk.now ≤ header.n + 1) × All (IsWithin (length bytes.now)) chunk.now }
        ensures { IsParsed (header_in header) (first + start) (map (line_of bytes.entry.now) chunk.entry.now) result }
    { parse_lines(alloc, header, first + start as u32, bytes, chunk) };
    map_chunks(token, alloc, lines, size, &parse)
}

/// Takes the words of the lines, the first of which is that of the vertex `first`, and answers the arcs that they name.
fn parse_lines(
    alloc: Global,
    header: Header,
    first: u32,
    bytes: &[u8],
    lines: &[LineAt],
) -> Result<Vec<NamedArc>, PieceFault>
    requires first { 1 ≤ first }
    requires last { first + length lines.now ≤ header.n + 1 }
    requires within { All (IsWithin (length bytes.now)) lines.now }
    ensures { IsParsed (header_in header) first (map (line_of bytes.now) lines.now) result }
{
    let mut stamps = vec![in alloc; 0; header.n as usize]?;
    let mut arcs = NamedArcs::new(alloc, most_words(lines))?;
    take_rows(header, first, bytes, lines, &mut stamps, &mut arcs)?;
    // There is room for all arcs, so they are kept.
    arcs.into_kept().ok_or(PieceFault::OutOfMemory)
}

/// How many words the lines may have, which stand one after another: a line of k bytes has at most half of k + 1.
fn most_words(lines: &[LineAt]) -> usize {
    let (Some(head), Some(last)) = (lines.first(), lines.last()) else {
        return 0;
    };
    last.end
        .saturating_sub(head.begin)
        .saturating_add(lines.len())
        / 2
}

/// Takes the words of the lines, the first of which is that of the vertex `first`. In `stamps` stands, for each vertex, the
/// last vertex whose line named it.
fn take_rows(
    header: Header,
    first: u32,
    bytes: &[u8],
    lines: &[LineAt],
    stamps: &mut [u32],
    arcs: &mut NamedArcs,
) -> Result<(), LineFault>
    requires first { 1 ≤ first }
    requires last { first + length lines.now ≤ header.n + 1 }
    requires within { All (IsWithin (length bytes.now)) lines.now }
    requires stamps { length stamps.old ≡ header.n }
    requires earlier { All (λ stamp. stamp < first) stamps.old }
    ensures faultless { OnOk result (lines_fault (header_in header) first (map (line_of bytes.now) lines.now) ≡ None) }
    ensures arcs { OnOk result (Adds arcs.old (named_arcs (header_in header).format first (map (line_of bytes.now) lines.now)) arcs.new) }
    ensures refused { IfErr result (λ fault. lines_fault (header_in header) first (map (line_of bytes.now) lines.now) ≡ Some (record { line = fault.line; kind = fault.kind })) }
{
    for k in 0..lines.len() {
        take_line(header, first + k as u32, bytes, lines[k], stamps, arcs)?;
    }
    Ok(())
}

/// Takes the words of the line that stands at these places of the bytes, as those of `vertex`.
fn take_line(
    header: Header,
    vertex: u32,
    bytes: &[u8],
    at: LineAt,
    stamps: &mut [u32],
    arcs: &mut NamedArcs,
) -> Result<(), LineFault>
    requires first { 1 ≤ vertex }
    requires last { vertex ≤ header.n }
    requires within { IsWithin (length bytes.now) at }
    requires stamps { length stamps.old ≡ header.n }
    requires earlier { All (λ stamp. stamp < vertex) stamps.old }
    ensures faultless { OnOk result (vertex_fault (header_in header) vertex (words (line_of bytes.now at).bytes) ≡ None) }
    ensures arcs { OnOk result (Adds arcs.old (arcs_or_none (line_arcs (header_in header).format vertex (line_of bytes.now at).bytes)) arcs.new) }
    ensures stamps { OnOk result (All (λ stamp. stamp < vertex + 1) stamps.new) }
    ensures refused { IfErr result (λ fault. (fault.line ≡ at.number) × (vertex_fault (header_in header) vertex (words (line_of bytes.now at).bytes) ≡ Some fault.kind)) }
{
    match take_row(header, vertex, &bytes[at.begin..at.end], stamps, arcs) {
        Ok(()) => Ok(()),
        Err(kind) => Err(LineFault {
            line: at.number,
            kind,
        }),
    }
}
