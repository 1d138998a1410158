//! The lines of a file that are no comments, one after another, and whether one has a word.

ghost use Rattle.std.specs.Prelude.{◌≡◌, ◌≢◌, ◌<◌, ◌≤◌, true, false, [], Some, IsTrue, IfOk, IfSome};
ghost use Rattle.pg_outside.specs.Faults.{Rose};
ghost use Rattle.pg_text.specs.Answers.{OnFailed, OnTooLong};
ghost use Rattle.pg_text.specs.Coming.{Told};
ghost use Rattle.pg_text.specs.Text.{is_comment, words};
ghost use Rattle.pg_metis.specs.Ahead.{content_ahead, TakesContent, IsPastLimit};

use pg_outside::Inputs;
use pg_text::{LineReader, TextFault, words};

/// A comment begins with a percent sign.
fn is_comment(line: &[u8]) -> bool
    ensures { result ≡ is_comment line.now }
{
    line.first() == Some(&b'%')
}

/// Whether a line has a word.
pub(crate) fn has_word(line: &[u8]) -> bool
    ensures some { result ≡ true → words line.now ≢ [] }
    ensures none { result ≡ false → words line.now ≡ [] }
{
    words(line).next().is_some()
}

/// Takes the next line that is no comment, and says whether there was one.
pub(crate) fn next_content<I: Inputs>(
    reader: &mut LineReader,
    inputs: &mut I,
) -> Result<bool, TextFault>
    requires begun { IsTrue (I.begun inputs.old) }
    ensures later { I.faults inputs.old ≤ I.faults inputs.new }
    ensures begun { I.begun inputs.new ≡ I.begun inputs.old }
    ensures files { I.files inputs.new ≡ I.files inputs.old }
    ensures ok { IfOk result (λ more. Told (content_ahead reader.old (I.left inputs.old)) (content_ahead reader.new (I.left inputs.new)) (TakesContent more reader.new.lines reader.new.line.items)) }
    ensures end { IfOk result (λ more. more ≡ false → IfSome (content_ahead reader.old (I.left inputs.old)) (λ _. I.left inputs.new ≡ Some [])) }
    ensures lines { IfOk result (λ more. more ≡ true → reader.old.lines < reader.new.lines) }
    ensures too_long { OnTooLong result (λ line. IfSome (content_ahead reader.old (I.left inputs.old)) (IsPastLimit line)) }
    ensures failed { OnFailed result (Rose (I.faults inputs.old) (I.faults inputs.new)) }
{
    while reader.next(inputs)? {
        if !is_comment(reader.line()) {
            return Ok(true);
        }
    }
    Ok(false)
}
