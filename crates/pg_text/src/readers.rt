//! The lines of an input that is read in pieces.
ghost use Rattle.std.specs.Prelude.{◌≤◌, ◌<◌, ◌+◌, ◌-◌, ◌^◌, vec_len};

use crate::TextFault;
use memchr::memchr;
use pg_outside::Inputs;
use std::alloc::{AllocError, Global};

/// How many bytes one read asks for.
const PIECE_BYTES: usize = 65_536;

/// Takes an input's lines one after another into one buffer. The input is handed in at each call.
#[derive(Drop)]
pub struct LineReader {
    /// What was read last. The bytes from `start` up to `end` are not yet taken.
    piece: Vec<u8>,
    start: usize,
    end: usize,
    /// The line that was taken last, without its newline.
    line: Vec<u8>,
    /// How many lines were taken.
    lines: u64,
    /// How many bytes may still be taken.
    room: u64,
    ghost ordered: { start ≤ end },
    ghost within: { end ≤ vec_len piece },
    ghost some_piece: { 0 < vec_len piece },
    ghost few: { lines + room < 2 ^ 64 - 1 },
}

impl LineReader {
    ghost use Rattle.std.specs.Prelude.{◌≡◌, ◌++◌, ⊤, [], ◌∷◌, ℕ, List, Option, Some, IsTrue, length, take, drop, if◌then◌else◌, true, false, IfOk, OnOk, IfSome};
    ghost use Rattle.std.specs.Option.{option_map};
    ghost use Rattle.std.specs.Io.KnownBytes.{Keeps};
    ghost use Rattle.pg_outside.specs.Faults.{Rose};
    ghost use Rattle.pg_text.specs.Ahead.{ahead_within};
    ghost use Rattle.pg_text.specs.Answers.{OnFailed, OnTooLong};
    ghost use Rattle.pg_text.specs.Coming.{bytes_ahead, coming, held, line_taken, lines_taken, IsDone, Takes, Told};
    ghost use Rattle.pg_text.specs.Cuts.{IsNewlineAt, IsOverlong};
    ghost use Rattle.pg_text.specs.Taking.{FillsLine, HasMore, TakesPart};

    /// A reader at the start of an input, of which no more than `limit` bytes may be taken. `Err` says that the run is
    /// out of memory.
    pub fn new(alloc: Global, limit: u64) -> Result<LineReader, AllocError>
        requires few { limit < 2 ^ 64 - 1 }
        ensures coming { IfOk result (λ reader. (left : Option (List ℕ)) → coming reader left ≡ option_map (ahead_within limit) left) }
        ensures lines { IfOk result (λ reader. lines_taken reader ≡ 0) }
    {
        let piece = vec![in alloc; 0u8; PIECE_BYTES]?;
        Ok(LineReader {
            piece,
            start: 0,
            end: 0,
            line: Vec::new(alloc),
            lines: 0,
            room: limit,
        })
    }

    /// The line that was taken last, without its newline.
    pub fn line(&self) -> &[u8]
        ensures { result.now ≡ line_taken self.now }
    {
        self.line.as_slice()
    }

    /// The number of the line that was taken last, from 1: how many lines were taken.
    pub fn line_number(&self) -> u64
        ensures number { result ≡ lines_taken self.now }
        ensures few { result < 2 ^ 64 - 1 }
    {
        self.lines
    }

    /// Takes the next line, and says whether there was one; where there was none, the input was read to its
    /// end. `TooLong` comes exactly where the next line holds a byte past the limit, `Failed` only where the
    /// input's count of faults rose, and `OutOfMemory` may come in any call. After an error the front of a line may be
    /// lost, so nothing is said of the lines that further calls take; `line_number` still answers how many were taken
    /// before it.
    pub fn next<I: Inputs>(&mut self, inputs: &mut I) -> Result<bool, TextFault>
        requires begun { IsTrue (I.begun inputs.old) }
        ensures later { I.faults inputs.old ≤ I.faults inputs.new }
        ensures begun { I.begun inputs.new ≡ I.begun inputs.old }
        ensures files { I.files inputs.new ≡ I.files inputs.old }
        ensures ok { IfOk result (λ more. Told (coming self.old (I.left inputs.old)) (coming self.new (I.left inputs.new)) (Takes more (line_taken self.new))) }
        ensures end { IfOk result (λ more. more ≡ false → IfSome (coming self.old (I.left inputs.old)) (λ _. I.left inputs.new ≡ Some [])) }
        ensures stays { IfOk result (λ more. more ≡ false → Told (coming self.old (I.left inputs.old)) (coming self.new (I.left inputs.new)) (λ _ now. IsDone now)) }
        ensures lines { IfOk result (λ more. lines_taken self.new ≡ (if more then lines_taken self.old + 1 else lines_taken self.old)) }
        ensures too_long { OnTooLong result (λ line. IfSome (coming self.old (I.left inputs.old)) (λ was. (line ≡ lines_taken self.old + 1) × (was.lines ≡ []) × (was.overlong ≡ true))) }
        ensures at { OnTooLong result (λ line. line ≡ lines_taken self.old + 1) }
        ensures failed { OnFailed result (Rose (I.faults inputs.old) (I.faults inputs.new)) }
    {
        let ended = self.fill_line(inputs)?;
        let more = ended || !self.line.is_empty();
        if more {
            self.lines += 1;
        }
        Ok(more)
    }

    /// Takes the next line, and says whether its newline was met.
    fn fill_line<I: Inputs>(&mut self, inputs: &mut I) -> Result<bool, TextFault>
        requires begun { IsTrue (I.begun inputs.old) }
        ensures later { I.faults inputs.old ≤ I.faults inputs.new }
        ensures begun { I.begun inputs.new ≡ I.begun inputs.old }
        ensures files { I.files inputs.new ≡ I.files inputs.old }
        ensures ok { IfOk result (λ ended. FillsLine ended self.old.room (bytes_ahead self.old (I.left inputs.old)) self.new (bytes_ahead self.new (I.left inputs.new))) }
        ensures lines { self.new.lines ≡ self.old.lines }
        ensures too_long { OnTooLong result (λ line. (line ≡ self.old.lines + 1) × IfSome (bytes_ahead self.old (I.left inputs.old)) (IsOverlong self.old.room)) }
        ensures failed { OnFailed result (Rose (I.faults inputs.old) (I.faults inputs.new)) }
    {
        self.line.clear();
        while !self.take_part()? {
            if !self.refill(inputs)? {
                return Ok(false);
            }
        }
        Ok(true)
    }

    /// Takes the rest of the line as far as the piece holds it, and says whether its newline was met.
    fn take_part(&mut self) -> Result<bool, TextFault>
        ensures ok { IfOk result (λ ended. TakesPart ended self.old self.new) }
        ensures lines { self.new.lines ≡ self.old.lines }
        ensures too_long { OnTooLong result (λ line. (line ≡ self.old.lines + 1) × IsOverlong self.old.room (held self.old)) }
        ensures failed { OnFailed result ⊥ }
    {
        match self.newline() {
            Some(place) => {
                self.take(place, place + 1)?;
                Ok(true)
            }
            None => {
                let count = self.end - self.start;
                self.take(count, count)?;
                Ok(false)
            }
        }
    }

    /// The place of the first newline, counted from the first byte that is not yet taken.
    fn newline(&self) -> Option<usize>
        ensures { IsNewlineAt (held self.now) result }
    {
        memchr(b'\n', &self.piece[self.start..self.end])
    }

    /// Takes `count` bytes, the first `part` of which are part of the line.
    fn take(&mut self, part: usize, count: usize) -> Result<(), TextFault>
        requires part { part ≤ count }
        requires count { count ≤ length (held self.old) }
        ensures line { OnOk result (self.new.line.items ≡ self.old.line.items ++ take part (held self.old)) }
        ensures rest { OnOk result (held self.new ≡ drop count (held self.old)) }
        ensures room { OnOk result (self.new.room + count ≡ self.old.room) }
        ensures lines { self.new.lines ≡ self.old.lines }
        ensures too_long { OnTooLong result (λ line. (line ≡ self.old.lines + 1) × (self.old.room < count)) }
        ensures failed { OnFailed result ⊥ }
    {
        if count as u64 > self.room {
            let line = self.lines + 1;
            return Err(TextFault::TooLong { line });
        }
        self.line
            .extend_from_slice(&self.piece[self.start..self.start + part])?;
        self.start += count;
        self.room -= count as u64;
        Ok(())
    }

    /// Reads the next piece, and says whether there was one.
    fn refill<I: Inputs>(&mut self, inputs: &mut I) -> Result<bool, TextFault>
        requires begun { IsTrue (I.begun inputs.old) }
        requires empty { held self.old ≡ [] }
        ensures later { I.faults inputs.old ≤ I.faults inputs.new }
        ensures begun { I.begun inputs.new ≡ I.begun inputs.old }
        ensures files { I.files inputs.new ≡ I.files inputs.old }
        ensures same { OnOk result (Keeps (bytes_ahead self.old (I.left inputs.old)) (bytes_ahead self.new (I.left inputs.new))) }
        ensures more { IfOk result (λ more. HasMore more self.new (I.left inputs.new)) }
        ensures line { self.new.line ≡ self.old.line }
        ensures lines { self.new.lines ≡ self.old.lines }
        ensures room { self.new.room ≡ self.old.room }
        ensures too_long { OnTooLong result (λ _. ⊥) }
        ensures failed { OnFailed result (Rose (I.faults inputs.old) (I.faults inputs.new)) }
    {
        let count = inputs.read(self.piece.as_mut_slice())?;
        self.start = 0;
        self.end = count;
        Ok(count > 0)
    }
}
