//! Words and numbers of a line.
ghost use Rattle.std.specs.Prelude.{◌≡◌, ◌≤◌, length, if◌then◌else◌, Some, None, IfSome};
ghost use Rattle.std.specs.List.{list_all};
ghost use Rattle.pg_text.specs.Remaining.{rest_of};
ghost use Rattle.pg_text.specs.Text.{decimal_value, is_digit, number, words};

use crate::Words;

/// How many digits a number has at most.
const MOST_DIGITS: usize = 10;

/// The words of `line`, in order. Source: METIS 5.1 manual, section 4.1.1.
pub fn words(line: &[u8]) -> Words<'_>
    ensures { words (rest_of result) ≡ words line.now }
{
    Words { rest: line }
}

/// The number that a word is: one to ten decimal digits worth at most 4,294,967,295. `None` exactly where
/// it isn't one.
#[tactic(auto, unfolding(crate::specs::Text::number))]
pub fn number(word: &[u8]) -> Option<u64>
    ensures number { result ≡ number word.now }
    ensures within { IfSome result (λ value. value ≤ 4294967295) }
{
    if word.is_empty() || word.len() > MOST_DIGITS {
        return None;
    }
    let value = digits_value(word)?;
    if value > u64::from(u32::MAX) {
        return None;
    }
    Some(value)
}

/// What decimal digits are worth. `None` where a byte is no digit.
#[tactic(auto, unfolding(crate::specs::Text::decimal_value))]
fn digits_value(digits: &[u8]) -> Option<u64>
    requires { length digits.now ≤ 10 }
    ensures { result ≡ (if list_all is_digit digits.now then Some (decimal_value digits.now) else None) }
{
    let mut value = 0u64;
    for digit in digits {
        if !digit.is_ascii_digit() {
            return None;
        }
        value = 10 * value + u64::from(*digit - b'0');
    }
    Some(value)
}
