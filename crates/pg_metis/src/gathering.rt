//! Lines taken together, so that they can be looked at side by side.

ghost use Rattle.std.specs.Prelude.{◌≡◌, ◌<◌, ◌≤◌, [], IsTrue, IfOk, IfSome, length, All};
ghost use Rattle.pg_outside.specs.Faults.{Rose};
ghost use Rattle.pg_text.specs.Coming.{lines_taken};
ghost use Rattle.pg_metis.specs.Ahead.{content_ahead};
ghost use Rattle.pg_metis.specs.Batches.{Begins, IsWithin, StopsAt, lines_in};
ghost use Rattle.pg_metis.specs.Gathering.{OnFailedStop};

use crate::content::next_content;
use pg_outside::Inputs;
use pg_text::{LineReader, TextFault};
use std::alloc::{AllocError, Global};

/// Where a line stands in the bytes of a batch.
#[derive(Clone, Copy)]
pub(crate) struct LineAt {
    /// Its number in the file, from 1.
    pub number: u64,
    pub begin: usize,
    pub end: usize,
}

/// Lines that were taken together.
#[derive(Drop)]
pub(crate) struct Batch {
    /// The bytes of the lines, one after another.
    pub bytes: Vec<u8>,
    pub lines: Vec<LineAt>,
}

impl Batch {
    ghost use Rattle.std.specs.Prelude.{OnOk, ◌+◌, ◌++◌, ◌∷◌};
    ghost use Rattle.pg_metis.specs.Gathering.{numbered_line};

    /// No line yet.
    pub fn new(alloc: Global) -> Batch {
        Batch {
            bytes: Vec::new(alloc),
            lines: Vec::new(alloc),
        }
    }

    /// Drops the lines, and keeps the memory.
    pub fn clear(&mut self)
        ensures bytes { self.new.bytes.items ≡ [] }
        ensures lines { self.new.lines.items ≡ [] }
    {
        self.bytes.clear();
        self.lines.clear();
    }

    /// Takes a line of this number after the others.
    fn push(&mut self, number: u64, line: &[u8]) -> Result<(), AllocError>
        requires within { All (IsWithin (length self.old.bytes.items)) self.old.lines.items }
        ensures within { OnOk result (All (IsWithin (length self.new.bytes.items)) self.new.lines.items) }
        ensures count { OnOk result (length self.new.lines.items ≡ length self.old.lines.items + 1) }
        ensures lines { OnOk result (lines_in self.new ≡ lines_in self.old ++ numbered_line number line.now ∷ []) }
    {
        let begin = self.bytes.len();
        self.bytes.extend_from_slice(line)?;
        let end = self.bytes.len();
        self.lines.push(LineAt { number, begin, end })?;
        Ok(())
    }
}

/// Why no more lines were taken together.
#[derive(Clone, Copy)]
pub(crate) enum Stop {
    /// There are enough of them.
    Full,
    /// The input has ended.
    End,
    /// The next line is too long, or a read failed.
    Fault(TextFault),
}

/// Takes lines that are no comments into the batch: at most `most`, and no more once they have `room` bytes.
pub(crate) fn gather<I: Inputs>(
    reader: &mut LineReader,
    inputs: &mut I,
    most: usize,
    room: usize,
    batch: &mut Batch,
) -> Result<Stop, AllocError>
    requires begun { IsTrue (I.begun inputs.old) }
    requires bytes { batch.old.bytes.items ≡ [] }
    requires lines { batch.old.lines.items ≡ [] }
    requires most { 1 ≤ most }
    requires room { 1 ≤ room }
    ensures later { I.faults inputs.old ≤ I.faults inputs.new }
    ensures begun { I.begun inputs.new ≡ I.begun inputs.old }
    ensures files { I.files inputs.new ≡ I.files inputs.old }
    ensures few { IfOk result (λ _. length batch.new.lines.items ≤ most) }
    ensures within { IfOk result (λ _. All (IsWithin (length batch.new.bytes.items)) batch.new.lines.items) }
    ensures first { IfOk result (λ _. IfSome (content_ahead reader.old (I.left inputs.old)) (Begins (lines_in batch.new))) }
    ensures stop { IfOk result (λ stop. StopsAt stop (lines_taken reader.new) (lines_in batch.new) (content_ahead reader.old (I.left inputs.old)) (content_ahead reader.new (I.left inputs.new))) }
    ensures missing { IfOk result (λ stop. stop ≡ Stop.End → length batch.new.lines.items < most) }
    ensures failed { IfOk result (λ stop. OnFailedStop stop (Rose (I.faults inputs.old) (I.faults inputs.new))) }
{
    while batch.lines.len() < most && batch.bytes.len() < room {
        match next_content(reader, inputs) {
            Ok(true) => batch.push(reader.line_number(), reader.line())?,
            Ok(false) => return Ok(Stop::End),
            Err(fault) => return Ok(Stop::Fault(fault)),
        }
    }
    Ok(Stop::Full)
}
