//! The words of a line, one after another.
ghost use Rattle.std.specs.Prelude.{◌≡◌};
ghost use Rattle.std.specs.Iterator.{item_count, YieldsFirstRef};
ghost use Rattle.pg_text.specs.Text.{is_blank, words};
ghost use Rattle.pg_text.specs.Cuts.{CutsBlanks, CutsRun};

/// The words of a line, in order: what spaces, tabs and carriage returns divide.
#[derive(Drop)]
pub struct Words<'a> {
    pub(crate) rest: &'a [u8],
}

impl<'a> Iterator for Words<'a> {
    type Item = &'a [u8];

    ghost next_gives = { YieldsFirstRef (λ s. words s.rest.now) };

    ghost remaining = { item_count (λ s. words s.rest.now) };

    fn next(&mut self) -> Option<&'a [u8]> {
        let (_, from_word) = split_blanks(self.rest);
        let (word, rest) = split_word(from_word);
        self.rest = rest;
        if word.is_empty() {
            return None;
        }
        Some(word)
    }
}

/// Spaces, tabs and carriage returns divide words.
fn is_blank(byte: u8) -> bool
    ensures { result ≡ is_blank byte }
{
    byte == b' ' || byte == b'\t' || byte == b'\r'
}

/// The blanks that the line begins with, and the rest.
fn split_blanks(line: &[u8]) -> (&[u8], &[u8])
    ensures { CutsBlanks line.now result.0.now result.1.now }
{
    let end = line.iter().position(|byte| !is_blank(*byte));
    line.split_at(end.unwrap_or(line.len()))
}

/// The longest front of the line without a blank, and the rest.
fn split_word(line: &[u8]) -> (&[u8], &[u8])
    ensures { CutsRun line.now result.0.now result.1.now }
{
    let end = line.iter().position(|byte| is_blank(*byte));
    line.split_at(end.unwrap_or(line.len()))
}
