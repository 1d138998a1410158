//! The lines of an input, each with its number.
ghost use Rattle.std.specs.Prelude.{◌≡◌, ◌<◌, ◌≤◌, ◌+◌, ◌-◌, ◌^◌, [], ℕ, List, Option, None, Some, IsTrue, if◌then◌else◌, true, false, is_ok, is_some, IfOk, IfSome};
ghost use Rattle.pg_outside.specs.Faults.{Rose};
ghost use Rattle.pg_text.specs.Answers.{OnFailed, OnTooLong};
ghost use Rattle.pg_text.specs.Coming.{coming, Gives, Told};

use crate::{LineReader, TextFault};
use pg_outside::Inputs;
use std::alloc::Global;

/// A line of an input.
#[derive(Debug, Drop, PartialEq, Eq)]
pub struct Line {
    /// The line's number, counted from 1.
    pub number: u64,
    /// The line's bytes, without the newline.
    pub bytes: Vec<u8>,
}

/// The lines of the bytes that an input has left, one after another.
#[derive(Drop)]
pub struct Lines<'a, I> {
    inputs: &'a mut I,
    /// How many bytes may be taken.
    limit: u64,
    /// None before the first line.
    reader: Option<LineReader>,
    /// Whether no call of `next` answered an error so far.
    usable: bool,
    ghost limited: { limit < 2 ^ 64 - 1 },
}

impl<'a, I: Inputs> Lines<'a, I> {
    ghost use Rattle.std.specs.Option.{option_map};
    ghost use Rattle.pg_text.specs.Ahead.{ahead_within};
    ghost use Rattle.pg_text.specs.Giving.{ahead, given, input_of, is_usable, limit_of, reference_of};

    /// The lines of the bytes that are left of the name that was begun last. No more than `limit` bytes are
    /// taken.
    #[tactic(auto, unfolding(crate::specs::Giving::ahead, crate::specs::Giving::given))]
    pub fn new(inputs: &'a mut I, limit: u64) -> Lines<'a, I>
        requires begun { IsTrue (I.begun inputs.old) }
        requires few { limit < 2 ^ 64 - 1 }
        ensures inputs { input_of result ≡ inputs.old }
        ensures same_reference { reference_of result ≡ inputs.entry.ghost_name }
        ensures ahead { (left : Option (List ℕ)) → ahead result left ≡ option_map (ahead_within limit) left }
        ensures given { given result ≡ 0 }
        ensures usable { is_usable result ≡ true }
    {
        Lines {
            inputs,
            limit,
            reader: None,
            usable: true,
        }
    }

    /// The next line, comment lines among them. `None` comes exactly where no line is left, and the input was then
    /// read to its end. `TooLong` comes exactly where the next line holds a byte past the limit, `Failed` only where
    /// the input's count of faults rose, and `OutOfMemory` may come in any call. After an error the lines are over:
    /// the front of a line may be lost, so no further one may be asked for. The input is still given back.
    #[tactic(auto, unfolding(crate::specs::Giving::ahead, crate::specs::Giving::given))]
    pub fn next(&mut self, alloc: Global) -> Result<Option<Line>, TextFault>
        requires begun { IsTrue (I.begun (input_of self.old)) }
        requires usable { is_usable self.old ≡ true }
        ensures usable { is_usable self.new ≡ is_ok result }
        ensures same_reference { reference_of self.new ≡ reference_of self.old }
        ensures limit { limit_of self.new ≡ limit_of self.old }
        ensures later { I.faults (input_of self.old) ≤ I.faults (input_of self.new) }
        ensures begun { I.begun (input_of self.new) ≡ I.begun (input_of self.old) }
        ensures files { I.files (input_of self.new) ≡ I.files (input_of self.old) }
        ensures ok { IfOk result (λ next. Told (ahead self.old (I.left (input_of self.old))) (ahead self.new (I.left (input_of self.new))) (Gives next)) }
        ensures end { IfOk result (λ next. next ≡ None → IfSome (ahead self.old (I.left (input_of self.old))) (λ _. I.left (input_of self.new) ≡ Some [])) }
        ensures number { IfOk result (λ next. IfSome next (λ line. line.number ≡ given self.old + 1)) }
        ensures few { IfOk result (λ next. IfSome next (λ line. line.number < 2 ^ 64 - 1)) }
        ensures given { IfOk result (λ next. given self.new ≡ (if is_some next then given self.old + 1 else given self.old)) }
        ensures too_long { OnTooLong result (λ line. IfSome (ahead self.old (I.left (input_of self.old))) (λ was. (line ≡ given self.old + 1) × (was.lines ≡ []) × (was.overlong ≡ true))) }
        ensures at { OnTooLong result (λ line. line ≡ given self.old + 1) }
        ensures failed { OnFailed result (Rose (I.faults (input_of self.old)) (I.faults (input_of self.new))) }
    {
        self.usable = false;
        let next = match &mut self.reader {
            Some(reader) => next_line(reader, self.inputs, alloc)?,
            None => {
                let mut reader = LineReader::new(alloc, self.limit)?;
                let next = next_line(&mut reader, self.inputs, alloc);
                self.reader = Some(reader);
                next?
            }
        };
        self.usable = true;
        Ok(next)
    }

    /// Gives the input back. It may have been read beyond the lines that were given.
    pub fn into_inputs(self) -> &'a mut I
        ensures same_reference { result.ghost_name ≡ reference_of self.entry }
        ensures inputs { result.now ≡ input_of self.entry }
    {
        let Lines { inputs, .. } = self;
        inputs
    }
}

/// The next line of the input that the reader takes lines from.
fn next_line<I: Inputs>(
    reader: &mut LineReader,
    inputs: &mut I,
    alloc: Global,
) -> Result<Option<Line>, TextFault>
    requires begun { IsTrue (I.begun inputs.old) }
    ensures later { I.faults inputs.old ≤ I.faults inputs.new }
    ensures begun { I.begun inputs.new ≡ I.begun inputs.old }
    ensures files { I.files inputs.new ≡ I.files inputs.old }
    ensures ok { IfOk result (λ next. Told (coming reader.old (I.left inputs.old)) (coming reader.new (I.left inputs.new)) (Gives next)) }
    ensures end { IfOk result (λ next. next ≡ None → IfSome (coming reader.old (I.left inputs.old)) (λ _. I.left inputs.new ≡ Some [])) }
    ensures number { IfOk result (λ next. IfSome next (λ line. line.number ≡ reader.old.lines + 1)) }
    ensures few { IfOk result (λ next. IfSome next (λ line. line.number < 2 ^ 64 - 1)) }
    ensures lines { IfOk result (λ next. reader.new.lines ≡ (if is_some next then reader.old.lines + 1 else reader.old.lines)) }
    ensures too_long { OnTooLong result (λ line. IfSome (coming reader.old (I.left inputs.old)) (λ was. (line ≡ reader.old.lines + 1) × (was.lines ≡ []) × (was.overlong ≡ true))) }
    ensures at { OnTooLong result (λ line. line ≡ reader.old.lines + 1) }
    ensures failed { OnFailed result (Rose (I.faults inputs.old) (I.faults inputs.new)) }
{
    if !reader.next(inputs)? {
        return Ok(None);
    }
    Ok(Some(Line {
        number: reader.line_number(),
        bytes: Vec::from_slice(alloc, reader.line())?,
    }))
}
