//! The line on standard error.
ghost use Rattle.std.specs.Prelude.{◌≡◌, ◌≤◌, [], ◌∷◌, ◌++◌, length, OnOk, OnErr};
ghost use Rattle.std.specs.Io.KnownBytes.{Appends};
ghost use Rattle.pg_outside.specs.Faults.{Rose};
ghost use Rattle.pg_outside.specs.Written.{AppendsFront};
ghost use Rattle.pg_print.specs.FaultLines.{fault_line, kind_name, parts_kind_name};

use crate::Fault;
use arrayvec::ArrayString;
use itoa::Buffer;
use pg_metis::{Kind, PartsKind};
use pg_outside::{Failed, Sink};

/// At least the length of every fault's line.
const FAULT_LINE: usize = 80;

/// Writes the line that reports the fault, by one call. After an `Err`, which comes only where the sink's count of
/// faults rose, a front of this line was written.
/// Source: docs/FORMAT.md, the texts of faults.
pub fn print_fault<S: Sink>(out: &mut S, fault: &Fault) -> Result<(), Failed>
    ensures ok { OnOk result (Appends (S.text out.old) (S.text out.new) (fault_line fault.now)) }
    ensures err { OnErr result (AppendsFront (S.text out.old) (S.text out.new) (fault_line fault.now)) }
    ensures cause { OnErr result (Rose (S.faults out.old) (S.faults out.new)) }
    ensures later { S.faults out.old ≤ S.faults out.new }
{
    let line = line_of(fault);
    out.write_all(line.as_str().as_bytes())
}

/// The line that reports the fault.
fn line_of(fault: &Fault) -> ArrayString<FAULT_LINE>
    ensures { result.bytes ≡ fault_line fault.now }
{
    match fault {
        Fault::Words => words_line("bad words"),
        Fault::Graph { line, kind } => graph_line(*line, *kind),
        Fault::Parts { line, kind } => parts_line(*line, *kind),
        Fault::Source { source } => source_line(*source),
        Fault::Read => words_line("cannot read"),
        Fault::Write => words_line("cannot write"),
        Fault::Memory => words_line("no memory"),
    }
}

fn words_line(words: &str) -> ArrayString<FAULT_LINE>
    requires { length words.now ≤ 20 }
    ensures { result.bytes ≡ words.now ++ 10 ∷ [] }
{
    let mut text = ArrayString::new();
    text.push_str(words);
    text.push_str("\n");
    text
}

fn graph_line(line: u64, kind: Kind) -> ArrayString<FAULT_LINE>
    ensures { result.bytes ≡ fault_line (Fault.Graph line kind) }
{
    let mut text = ArrayString::new();
    text.push_str("line ");
    text.push_str(Buffer::new().format(line));
    text.push_str(": ");
    text.push_str(name_of(kind));
    text.push_str("\n");
    text
}

fn parts_line(line: u64, kind: PartsKind) -> ArrayString<FAULT_LINE>
    ensures { result.bytes ≡ fault_line (Fault.Parts line kind) }
{
    let mut text = ArrayString::new();
    text.push_str("parts line ");
    text.push_str(Buffer::new().format(line));
    text.push_str(": ");
    text.push_str(parts_name_of(kind));
    text.push_str("\n");
    text
}

fn source_line(source: u32) -> ArrayString<FAULT_LINE>
    ensures { result.bytes ≡ fault_line (Fault.Source source) }
{
    let mut text = ArrayString::new();
    text.push_str("source ");
    text.push_str(Buffer::new().format(source));
    text.push_str(": not in the graph");
    text.push_str("\n");
    text
}

/// The kind's name, as it is printed.
fn name_of(kind: Kind) -> &'static str
    ensures text { result.now ≡ kind_name kind }
    ensures short { length result.now ≤ 12 }
{
    match kind {
        Kind::NoHeader => "NoHeader",
        Kind::HeaderWords => "HeaderWords",
        Kind::BadNumber => "BadNumber",
        Kind::OverLimit => "OverLimit",
        Kind::BadFormat => "BadFormat",
        Kind::ShortLine => "ShortLine",
        Kind::OutOfRange => "OutOfRange",
        Kind::SelfEdge => "SelfEdge",
        Kind::Repeated => "Repeated",
        Kind::ZeroWeight => "ZeroWeight",
        Kind::MissingLines => "MissingLines",
        Kind::ExtraText => "ExtraText",
        Kind::WrongCount => "WrongCount",
        Kind::NoMirror => "NoMirror",
        Kind::MirrorWeight => "MirrorWeight",
        Kind::TooLong => "TooLong",
    }
}

/// The name of a partition file's kind, as it is printed.
fn parts_name_of(kind: PartsKind) -> &'static str
    ensures text { result.now ≡ parts_kind_name kind }
    ensures short { length result.now ≤ 12 }
{
    match kind {
        PartsKind::BadNumber => "BadNumber",
        PartsKind::OutOfRange => "OutOfRange",
        PartsKind::ExtraText => "ExtraText",
        PartsKind::MissingLines => "MissingLines",
        PartsKind::TooLong => "TooLong",
    }
}
