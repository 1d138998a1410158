//! From a partition file to the list of the vertices' ranks.

ghost use Rattle.std.specs.Prelude.{◌≡◌, ◌≢◌, ◌<◌, ◌≤◌, ◌∷◌, [], ℕ, List, None, Some, true, IsTrue, IfOk, OnOk, IfErr, IfSome, All, length, vec_len};
ghost use Rattle.pg_outside.specs.Faults.{Rose};
ghost use Rattle.pg_text.specs.Text.{numbers, words};
ghost use Rattle.pg_metis.specs.Ahead.{content_ahead};
ghost use Rattle.pg_metis.specs.LineFaults.{IsPartsLineFault};
ghost use Rattle.pg_metis.specs.Parts.{FirstPartsFault, PartsOf, part_fault, parts_content_fault, parts_fault_of};
ghost use Rattle.pg_metis.specs.PartsAnswers.{ArePartsNotRefused, ArePartsRefusedAs, OnPartsFailed, OnPartsRefused};
ghost use Rattle.pg_metis.specs.PartsReading.{TakesPart, TakesParts};

use crate::content::{has_word, next_content};
use crate::parts_faults::PartsLineFault;
use crate::{MAX_FILE_BYTES, PartsFault, PartsKind};
use pg_base::Ranks;
use pg_outside::Inputs;
use pg_text::{LineReader, number, words};
use std::alloc::Global;

/// Reads the bytes that are left of the name begun last as a partition file of `n` vertices, and answers
/// their ranks: entry v - 1 is the number of the rank of vertex v, below the number of ranks. The contents
/// are these bytes.
///
/// `Refused` comes exactly where the contents have that first fault and no read failed before it was found.
/// `Failed` comes only where the count of faults rose. After `Ok` the input was read to its end; after an
/// `Err` it stands anywhere. Takes memory for its longest line and for `n` numbers, and time
/// linear in its bytes. Source: METIS 5.1 manual, section 4.2.1.
pub fn read_parts<I: Inputs>(
    alloc: Global,
    inputs: &mut I,
    n: u32,
    ranks: Ranks,
) -> Result<Vec<u32>, PartsFault>
    requires { IsTrue (I.begun inputs.old) }
    ensures ok { IfOk result (λ parts. IfSome (I.left inputs.old) (λ text. PartsOf text n ranks parts.items)) }
    ensures count { IfOk result (λ parts. vec_len parts ≡ n) }
    ensures below { IfOk result (λ parts. All (λ part. part < ranks) parts.items) }
    ensures end { OnOk result (IfSome (I.left inputs.old) (λ _. I.left inputs.new ≡ Some [])) }
    ensures refused { OnPartsRefused result (λ fault. IfSome (I.left inputs.old) (λ text. parts_fault_of n ranks text ≡ Some fault)) }
    ensures malformed { IfSome (I.left inputs.old) (λ text. (fault : FirstPartsFault) → parts_fault_of n ranks text ≡ Some fault → ArePartsRefusedAs result fault) }
    ensures well_formed { IfSome (I.left inputs.old) (λ text. (parts : List ℕ) → PartsOf text n ranks parts → ArePartsNotRefused result) }
    ensures failed { OnPartsFailed result (Rose (I.faults inputs.old) (I.faults inputs.new)) }
    ensures later { I.faults inputs.old ≤ I.faults inputs.new }
    ensures files { I.files inputs.new ≡ I.files inputs.old }
{
    let mut reader = LineReader::new(alloc, MAX_FILE_BYTES)?;
    let parts = read_lines(alloc, &mut reader, inputs, n, ranks)?;
    read_end(&mut reader, inputs)?;
    Ok(parts)
}

/// Takes the lines of `n` vertices, and answers their ranks.
fn read_lines<I: Inputs>(
    alloc: Global,
    reader: &mut LineReader,
    inputs: &mut I,
    n: u32,
    ranks: Ranks,
) -> Result<Vec<u32>, PartsFault>
    requires begun { IsTrue (I.begun inputs.old) }
    ensures later { I.faults inputs.old ≤ I.faults inputs.new }
    ensures begun { I.begun inputs.new ≡ I.begun inputs.old }
    ensures files { I.files inputs.new ≡ I.files inputs.old }
    ensures ok { IfOk result (λ parts. TakesParts parts.items (content_ahead reader.old (I.left inputs.old)) (content_ahead reader.new (I.left inputs.new))) }
    ensures count { IfOk result (λ parts. vec_len parts ≡ n) }
    ensures below { IfOk result (λ parts. All (λ part. part < ranks) parts.items) }
    ensures refused { OnPartsRefused result (λ fault. IfSome (content_ahead reader.old (I.left inputs.old)) (λ was. parts_content_fault n ranks was ≡ Some fault)) }
    ensures failed { OnPartsFailed result (Rose (I.faults inputs.old) (I.faults inputs.new)) }
{
    let mut parts = Vec::with_capacity(alloc, n as usize)?;
    for _place in 0..n {
        let part = read_line(reader, inputs, ranks)?;
        parts.push_reserved(part);
    }
    Ok(parts)
}

/// Takes the line of a vertex, and answers its rank.
fn read_line<I: Inputs>(
    reader: &mut LineReader,
    inputs: &mut I,
    ranks: Ranks,
) -> Result<u32, PartsFault>
    requires begun { IsTrue (I.begun inputs.old) }
    ensures later { I.faults inputs.old ≤ I.faults inputs.new }
    ensures begun { I.begun inputs.new ≡ I.begun inputs.old }
    ensures files { I.files inputs.new ≡ I.files inputs.old }
    ensures ok { IfOk result (λ part. TakesPart part (content_ahead reader.old (I.left inputs.old)) (content_ahead reader.new (I.left inputs.new))) }
    ensures below { IfOk result (λ part. part < ranks) }
    ensures refused { OnPartsRefused result (λ fault. IfSome (content_ahead reader.old (I.left inputs.old)) (λ was. (wanted : ℕ) → 1 ≤ wanted → parts_content_fault wanted ranks was ≡ Some fault)) }
    ensures failed { OnPartsFailed result (Rose (I.faults inputs.old) (I.faults inputs.new)) }
{
    let more = next_content(reader, inputs)?;
    let part = part_at(reader, more, ranks)?;
    Ok(part)
}

/// The rank that the line taken last gives, where there was one more.
fn part_at(reader: &LineReader, more: bool, ranks: Ranks) -> Result<u32, PartsLineFault>
    ensures some { OnOk result (more ≡ true) }
    ensures gives { IfOk result (λ part. numbers (words reader.now.line.items) ≡ Some (part ∷ [])) }
    ensures below { IfOk result (λ part. part < ranks) }
    ensures refused { IfErr result (IsPartsLineFault (part_fault ranks) PartsKind.MissingLines more reader.now.lines reader.now.line.items) }
{
    let line = reader.line_number();
    if !more {
        return Err(PartsLineFault {
            line: line + 1,
            kind: PartsKind::MissingLines,
        });
    }
    match part_of(reader.line(), ranks) {
        Ok(part) => Ok(part),
        Err(kind) => Err(PartsLineFault { line, kind }),
    }
}

/// The rank that the line of a vertex gives.
fn part_of(line: &[u8], ranks: Ranks) -> Result<u32, PartsKind>
    ensures gives { IfOk result (λ part. numbers (words line.now) ≡ Some (part ∷ [])) }
    ensures below { IfOk result (λ part. part < ranks) }
    ensures refused { IfErr result (λ kind. part_fault ranks (words line.now) ≡ Some kind) }
{
    let mut left = words(line);
    let Some(word) = left.next() else {
        return Err(PartsKind::BadNumber);
    };
    let Some(part) = number(word) else {
        return Err(PartsKind::BadNumber);
    };
    if part >= u64::from(ranks.count()) {
        return Err(PartsKind::OutOfRange);
    }
    if left.next().is_some() {
        return Err(PartsKind::ExtraText);
    }
    Ok(part as u32)
}

/// Takes what follows the lines of the vertices, which has no word.
fn read_end<I: Inputs>(reader: &mut LineReader, inputs: &mut I) -> Result<(), PartsFault>
    requires begun { IsTrue (I.begun inputs.old) }
    ensures later { I.faults inputs.old ≤ I.faults inputs.new }
    ensures begun { I.begun inputs.new ≡ I.begun inputs.old }
    ensures files { I.files inputs.new ≡ I.files inputs.old }
    ensures ok { OnOk result (IfSome (content_ahead reader.old (I.left inputs.old)) (λ was. (ranks : ℕ) → parts_content_fault 0 ranks was ≡ None)) }
    ensures end { OnOk result (IfSome (content_ahead reader.old (I.left inputs.old)) (λ _. I.left inputs.new ≡ Some [])) }
    ensures refused { OnPartsRefused result (λ fault. IfSome (content_ahead reader.old (I.left inputs.old)) (λ was. (ranks : ℕ) → parts_content_fault 0 ranks was ≡ Some fault)) }
    ensures failed { OnPartsFailed result (Rose (I.faults inputs.old) (I.faults inputs.new)) }
{
    while next_content(reader, inputs)? {
        blank_at(reader)?;
    }
    Ok(())
}

/// Sees that the line taken last, which follows those of the vertices, has no word.
fn blank_at(reader: &LineReader) -> Result<(), PartsLineFault>
    ensures ok { OnOk result (words reader.now.line.items ≡ []) }
    ensures refused { IfErr result (λ fault. (fault.line ≡ reader.now.lines) × (fault.kind ≡ PartsKind.ExtraText) × (words reader.now.line.items ≢ [])) }
{
    if has_word(reader.line()) {
        return Err(PartsLineFault {
            line: reader.line_number(),
            kind: PartsKind::ExtraText,
        });
    }
    Ok(())
}
