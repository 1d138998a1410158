//! What the definitions of this crate's `specs/` say of small texts, and what follows from them in
//! general. No call does anything: each is proved to meet the laws that its clauses state.
ghost use Rattle.std.specs.Prelude.{◌≡◌, Some, None, [], ◌∷◌, true, false, codes};
ghost use Rattle.pg_text.specs.Ahead.{ahead_within};
ghost use Rattle.pg_text.specs.AheadLaws.{LinesAreCounted, LongLinesAreNotWithin, ShortTextsAreWithin};
ghost use Rattle.pg_text.specs.Examples.{parted_text, spaced_line, two_lines};
ghost use Rattle.pg_text.specs.Text.{lines, words, is_comment, number, numbers};

/// A line ends at a newline byte, and bytes after the last newline are a line.
#[tactic(auto, unfolding(crate::specs::Text::lines))]
pub fn text_lines()
    ensures none { lines [] ≡ [] }
    ensures one_empty { lines (10 ∷ []) ≡ [] ∷ [] }
    ensures parted { lines parted_text ≡ codes "ab" ∷ [] ∷ codes "cd" ∷ [] }
    ensures two { lines two_lines ≡ codes "ab" ∷ codes "cd" ∷ [] }
{}

/// A newline belongs to the line that it ends, and a line with a byte past the limit is overlong.
#[tactic(auto, unfolding(crate::specs::Text::lines, crate::specs::Ahead::lines_within))]
pub fn lines_within_limits()
    ensures all { ahead_within 6 two_lines ≡ record { lines = codes "ab" ∷ codes "cd" ∷ []; overlong = false } }
    ensures newline_past { ahead_within 5 two_lines ≡ record { lines = codes "ab" ∷ []; overlong = true } }
    ensures byte_past { ahead_within 4 two_lines ≡ record { lines = codes "ab" ∷ []; overlong = true } }
    ensures second_past { ahead_within 3 two_lines ≡ record { lines = codes "ab" ∷ []; overlong = true } }
    ensures first_newline_past { ahead_within 2 two_lines ≡ record { lines = []; overlong = true } }
    ensures no_newline { ahead_within 6 parted_text ≡ record { lines = codes "ab" ∷ [] ∷ codes "cd" ∷ []; overlong = false } }
    ensures no_newline_past { ahead_within 5 parted_text ≡ record { lines = codes "ab" ∷ [] ∷ []; overlong = true } }
    ensures no_bytes { ahead_within 0 [] ≡ record { lines = []; overlong = false } }
{}

/// What lines are within a limit, line by line.
pub fn limit_laws()
    ensures short_texts { ShortTextsAreWithin }
    ensures counted { LinesAreCounted }
    ensures long_lines { LongLinesAreNotWithin }
{}

/// Words are divided by spaces, tabs and carriage returns.
#[tactic(auto, unfolding(crate::specs::Text::words))]
pub fn line_words()
    ensures none { words [] ≡ [] }
    ensures blanks { words (codes "  ") ≡ [] }
    ensures one { words (codes "abc") ≡ codes "abc" ∷ [] }
    ensures spaced { words spaced_line ≡ codes "12" ∷ codes "7" ∷ [] }
{}

/// A line is a comment where its first byte is a percent sign.
pub fn comments()
    ensures percent { is_comment (codes "% 3 2") ≡ true }
    ensures empty { is_comment [] ≡ false }
    ensures later { is_comment (codes " % 3 2") ≡ false }
{}

/// A number is one to ten decimal digits worth at most 4,294,967,295.
#[tactic(auto, unfolding(crate::specs::Text::number, crate::specs::Text::numbers, crate::specs::Text::decimal_value))]
pub fn word_numbers()
    ensures zero { number (codes "0") ≡ Some 0 }
    ensures zeros_first { number (codes "0000000002") ≡ Some 2 }
    ensures greatest { number (codes "4294967295") ≡ Some 4294967295 }
    ensures too_great { number (codes "4294967296") ≡ None }
    ensures too_long { number (codes "00000000002") ≡ None }
    ensures empty { number [] ≡ None }
    ensures letter { number (codes "12x") ≡ None }
    ensures sign { number (codes "-1") ≡ None }
    ensures all { numbers (codes "7" ∷ codes "0" ∷ []) ≡ Some (7 ∷ 0 ∷ []) }
    ensures not_all { numbers (codes "7" ∷ codes "x" ∷ []) ≡ None }
{}
