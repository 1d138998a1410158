//! A graph file line by line: its header, the lines of its vertices, and what follows them.

ghost use Rattle.std.specs.Prelude.{◌≡◌, ◌≢◌, ◌+◌, ◌<◌, ◌≤◌, [], Some, None, true, IsTrue, IfOk, IfErr, OnOk, IfSome, length, All};
ghost use Rattle.pg_outside.specs.Faults.{Rose};
ghost use Rattle.pg_text.specs.Coming.{Told};
ghost use Rattle.pg_metis.specs.Ahead.{content_ahead};
ghost use Rattle.pg_metis.specs.Answers.{OnFailed, OnRefused};
ghost use Rattle.pg_text.specs.Text.{words};
ghost use Rattle.pg_metis.specs.Arcs.{Adds};
ghost use Rattle.pg_metis.specs.Fault.{arcs_or_none, body_fault, content_fault, fault_of, header_fault, vertex_fault};
ghost use Rattle.pg_metis.specs.File.{header_of, line_arcs};
ghost use Rattle.pg_metis.specs.LineFaults.{IsLineFault};
ghost use Rattle.pg_metis.specs.Headers.{header_in};
ghost use Rattle.pg_metis.specs.Reading.{TakesHeader, TakesRow, AreRowsOf, ReadsRows, blank_fault, ReadsBody, ReadsFile};

use crate::arcs::NamedArcs;
use crate::content::{has_word, next_content};
use crate::faults::LineFault;
use crate::headers::Header;
use crate::rows::take_row;
use crate::{GraphFault, Kind, MAX_FILE_BYTES};
use pg_outside::Inputs;
use pg_text::LineReader;
use std::alloc::Global;

/// What is known from the lines of the vertices so far.
#[derive(Drop)]
pub(crate) struct Rows {
    /// For each vertex the last vertex whose line named it, or 0.
    stamps: Vec<u32>,
    /// The number of each vertex's line.
    pub numbers: Vec<u64>,
    pub arcs: NamedArcs,
}

/// What is known from the lines of a file, before they are held against one another.
#[derive(Drop)]
pub(crate) struct FileLines {
    pub header: Header,
    /// The number of the header's line.
    pub header_line: u64,
    pub rows: Rows,
}

/// Takes the header.
pub(crate) fn read_header<I: Inputs>(
    reader: &mut LineReader,
    inputs: &mut I,
) -> Result<Header, GraphFault>
    requires begun { IsTrue (I.begun inputs.old) }
    ensures later { I.faults inputs.old ≤ I.faults inputs.new }
    ensures begun { I.begun inputs.new ≡ I.begun inputs.old }
    ensures files { I.files inputs.new ≡ I.files inputs.old }
    ensures ok { IfOk result (λ header. Told (content_ahead reader.old (I.left inputs.old)) (content_ahead reader.new (I.left inputs.new)) (TakesHeader (header_in header) reader.new.lines)) }
    ensures refused { OnRefused result (λ fault. IfSome (content_ahead reader.old (I.left inputs.old)) (λ was. content_fault was ≡ Some fault)) }
    ensures failed { OnFailed result (Rose (I.faults inputs.old) (I.faults inputs.new)) }
{
    let more = next_content(reader, inputs)?;
    let header = header_at(reader, more)?;
    Ok(header)
}

/// The header that the line taken last is, where there was one more.
fn header_at(reader: &LineReader, more: bool) -> Result<Header, LineFault>
    ensures some { OnOk result (more ≡ true) }
    ensures ok { IfOk result (λ header. header_of (words reader.now.line.items) ≡ Some (header_in header)) }
    ensures faultless { OnOk result (header_fault (words reader.now.line.items) ≡ None) }
    ensures refused { IfErr result (IsLineFault header_fault Kind.NoHeader more reader.now.lines reader.now.line.items) }
{
    let line = reader.line_number();
    if !more {
        return Err(LineFault {
            line: line + 1,
            kind: Kind::NoHeader,
        });
    }
    match Header::of_line(reader.line()) {
        Ok(header) => Ok(header),
        Err(kind) => Err(LineFault { line, kind }),
    }
}

/// Takes the line of `vertex`.
fn read_row<I: Inputs>(
    reader: &mut LineReader,
    inputs: &mut I,
    header: Header,
    vertex: u32,
    rows: &mut Rows,
) -> Result<(), GraphFault>
    requires begun { IsTrue (I.begun inputs.old) }
    requires first { 1 ≤ vertex }
    requires last { vertex ≤ header.n }
    requires size { length rows.old.stamps.items ≡ header.n }
    requires stamps { All (λ stamp. stamp < vertex) rows.old.stamps.items }
    ensures later { I.faults inputs.old ≤ I.faults inputs.new }
    ensures begun { I.begun inputs.new ≡ I.begun inputs.old }
    ensures files { I.files inputs.new ≡ I.files inputs.old }
    ensures ok { OnOk result (TakesRow (header_in header) vertex rows.old rows.new (content_ahead reader.old (I.left inputs.old)) (content_ahead reader.new (I.left inputs.new))) }
    ensures refused { OnRefused result (λ fault. IfSome (content_ahead reader.old (I.left inputs.old)) (λ was. body_fault (header_in header) vertex was ≡ Some fault)) }
    ensures failed { OnFailed result (Rose (I.faults inputs.old) (I.faults inputs.new)) }
{
    let more = next_content(reader, inputs)?;
    let line = row_at(
        reader,
        more,
        header,
        vertex,
        &mut rows.stamps,
        &mut rows.arcs,
    )?;
    rows.numbers.push(line)?;
    Ok(())
}

/// Takes the words of the line taken last, where there was one more, as those of `vertex`, and answers its number.
fn row_at(
    reader: &LineReader,
    more: bool,
    header: Header,
    vertex: u32,
    stamps: &mut [u32],
    arcs: &mut NamedArcs,
) -> Result<u64, LineFault>
    requires first { 1 ≤ vertex }
    requires stamps { length stamps.old ≡ header.n }
    requires earlier { All (λ stamp. stamp < vertex) stamps.old }
    ensures some { OnOk result (more ≡ true) }
    ensures line { IfOk result (λ line. line ≡ reader.now.lines) }
    ensures faultless { OnOk result (vertex_fault (header_in header) vertex (words reader.now.line.items) ≡ None) }
    ensures arcs { OnOk result (Adds arcs.old (arcs_or_none (line_arcs (header_in header).format vertex reader.now.line.items)) arcs.new) }
    ensures stamps { OnOk result (All (λ stamp. stamp < vertex + 1) stamps.new) }
    ensures refused { IfErr result (IsLineFault (vertex_fault (header_in header) vertex) Kind.MissingLines more reader.now.lines reader.now.line.items) }
{
    let line = reader.line_number();
    if !more {
        return Err(LineFault {
            line: line + 1,
            kind: Kind::MissingLines,
        });
    }
    match take_row(header, vertex, reader.line(), stamps, arcs) {
        Ok(()) => Ok(line),
        Err(kind) => Err(LineFault { line, kind }),
    }
}

impl Rows {
    /// Nothing is known from any line yet. Has memory for all lines.
    fn new(alloc: Global, header: Header) -> Result<Rows, GraphFault>
        ensures ok { IfOk result (λ rows. AreRowsOf (header_in header) 0 rows []) }
        ensures refused { OnRefused result (λ _. ⊥) }
        ensures failed { OnFailed result ⊥ }
    {
        let stamps = vec![in alloc; 0; header.n as usize]?;
        let numbers = Vec::with_capacity(alloc, header.n as usize)?;
        let arcs = NamedArcs::new(alloc, 2 * header.m as usize)?;
        Ok(Rows {
            stamps,
            numbers,
            arcs,
        })
    }
}

/// Takes the lines of all vertices.
fn read_rows<I: Inputs>(
    reader: &mut LineReader,
    inputs: &mut I,
    header: Header,
    rows: &mut Rows,
) -> Result<(), GraphFault>
    requires begun { IsTrue (I.begun inputs.old) }
    requires none { AreRowsOf (header_in header) 0 rows.old [] }
    ensures later { I.faults inputs.old ≤ I.faults inputs.new }
    ensures begun { I.begun inputs.new ≡ I.begun inputs.old }
    ensures files { I.files inputs.new ≡ I.files inputs.old }
    ensures ok { OnOk result (ReadsRows (header_in header) header.n rows.new (content_ahead reader.old (I.left inputs.old)) (content_ahead reader.new (I.left inputs.new))) }
    ensures refused { OnRefused result (λ fault. IfSome (content_ahead reader.old (I.left inputs.old)) (λ was. body_fault (header_in header) 1 was ≡ Some fault)) }
    ensures failed { OnFailed result (Rose (I.faults inputs.old) (I.faults inputs.new)) }
{
    for place in 0..header.n {
        read_row(reader, inputs, header, place + 1, rows)?;
    }
    Ok(())
}

/// Takes what follows the lines of the vertices, which has no word.
pub(crate) fn read_end<I: Inputs>(reader: &mut LineReader, inputs: &mut I) -> Result<(), GraphFault>
    requires begun { IsTrue (I.begun inputs.old) }
    ensures later { I.faults inputs.old ≤ I.faults inputs.new }
    ensures begun { I.begun inputs.new ≡ I.begun inputs.old }
    ensures files { I.files inputs.new ≡ I.files inputs.old }
    ensures ok { OnOk result (IfSome (content_ahead reader.old (I.left inputs.old)) (λ was. blank_fault was ≡ None)) }
    ensures end { OnOk result (IfSome (content_ahead reader.old (I.left inputs.old)) (λ _. I.left inputs.new ≡ Some [])) }
    ensures refused { OnRefused result (λ fault. IfSome (content_ahead reader.old (I.left inputs.old)) (λ was. blank_fault was ≡ Some fault)) }
    ensures failed { OnFailed result (Rose (I.faults inputs.old) (I.faults inputs.new)) }
{
    while next_content(reader, inputs)? {
        blank_at(reader)?;
    }
    Ok(())
}

/// Sees that the line taken last, which follows those of the vertices, has no word.
fn blank_at(reader: &LineReader) -> Result<(), LineFault>
    ensures ok { OnOk result (words reader.now.line.items ≡ []) }
    ensures refused { IfErr result (λ fault. (fault.line ≡ reader.now.lines) × (fault.kind ≡ Kind.ExtraText) × (words reader.now.line.items ≢ [])) }
{
    if has_word(reader.line()) {
        return Err(LineFault {
            line: reader.line_number(),
            kind: Kind::ExtraText,
        });
    }
    Ok(())
}

/// Takes all that follows the header.
fn read_body<I: Inputs>(
    alloc: Global,
    reader: &mut LineReader,
    inputs: &mut I,
    header: Header,
) -> Result<Rows, GraphFault>
    requires begun { IsTrue (I.begun inputs.old) }
    ensures later { I.faults inputs.old ≤ I.faults inputs.new }
    ensures begun { I.begun inputs.new ≡ I.begun inputs.old }
    ensures files { I.files inputs.new ≡ I.files inputs.old }
    ensures ok { IfOk result (λ rows. ReadsBody (header_in header) rows (content_ahead reader.old (I.left inputs.old))) }
    ensures end { OnOk result (IfSome (content_ahead reader.old (I.left inputs.old)) (λ _. I.left inputs.new ≡ Some [])) }
    ensures refused { OnRefused result (λ fault. IfSome (content_ahead reader.old (I.left inputs.old)) (λ was. body_fault (header_in header) 1 was ≡ Some fault)) }
    ensures failed { OnFailed result (Rose (I.faults inputs.old) (I.faults inputs.new)) }
{
    let mut rows = Rows::new(alloc, header)?;
    read_rows(reader, inputs, header, &mut rows)?;
    read_end(reader, inputs)?;
    Ok(rows)
}

/// Reads the name that was begun last to its end. Answers the first fault of a line where there is one.
pub(crate) fn read_file<I: Inputs>(alloc: Global, inputs: &mut I) -> Result<FileLines, GraphFault>
    requires begun { IsTrue (I.begun inputs.old) }
    ensures later { I.faults inputs.old ≤ I.faults inputs.new }
    ensures files { I.files inputs.new ≡ I.files inputs.old }
    ensures ok { IfOk result (λ file. ReadsFile file (I.left inputs.old)) }
    ensures end { OnOk result (IfSome (I.left inputs.old) (λ _. I.left inputs.new ≡ Some [])) }
    ensures refused { OnRefused result (λ fault. IfSome (I.left inputs.old) (λ text. fault_of text ≡ Some fault)) }
    ensures failed { OnFailed result (Rose (I.faults inputs.old) (I.faults inputs.new)) }
{
    let mut reader = LineReader::new(alloc, MAX_FILE_BYTES)?;
    let header = read_header(&mut reader, inputs)?;
    let header_line = reader.line_number();
    let rows = read_body(alloc, &mut reader, inputs, header)?;
    Ok(FileLines {
        header,
        header_line,
        rows,
    })
}
