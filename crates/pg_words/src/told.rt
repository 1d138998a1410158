//! What the words say of a positional or an option.
ghost use Rattle.std.specs.Prelude.{◌≡◌, ◌≤◌, is_some, true, IfSome, option_map};
ghost use Rattle.clap.specs.Matches.{found_of};
ghost use Rattle.clap.specs.Walk.{rows_of};
ghost use Rattle.pg_words.specs.CommandLine.{told};
ghost use Rattle.pg_words.specs.Plan.{number_or, number_within};

use clap::ArgMatches;
use pg_text::number;

/// The value of a positional or an option, or `None` where the words have none.
pub fn told<'a>(matches: &ArgMatches<'a>, name: &str) -> Option<&'a str>
    ensures { option_map (λ s. s.now) result ≡ told (rows_of (found_of matches.now)) name.now }
{
    matches.get_str(name)
}

/// The number from `least` to `most` that the word is. `None` where it is no such number.
#[tactic(auto, unfolding(crate::specs::Plan::number_within))]
fn number_within(least: u32, most: u32, word: &str) -> Option<u32>
    ensures value { result ≡ number_within least most word.now }
    ensures range { IfSome result (λ value. (least ≤ value) × (value ≤ most)) }
{
    let value = number(word.as_bytes())?;
    if u64::from(least) <= value && value <= u64::from(most) {
        Some(value as u32)
    } else {
        None
    }
}

/// The number from `least` to `most` that the word is, or `otherwise` where the word isn't there. `None` where it is no
/// such number.
fn number_or(otherwise: u32, least: u32, most: u32, word: Option<&str>) -> Option<u32>
    ensures value { result ≡ number_or otherwise least most (option_map (λ s. s.now) word.entry) }
    ensures given { is_some word.entry ≡ true → IfSome result (λ value. least ≤ value) }
    ensures range { IfSome result (λ value. (least ≤ otherwise → least ≤ value) × (otherwise ≤ most → value ≤ most)) }
{
    match word {
        None => Some(otherwise),
        Some(word) => number_within(least, most, word),
    }
}

/// The number that an option gives, from `least` to `most`, or `otherwise` where it isn't there. `None` where its
/// value is no such number.
pub fn number_told(
    matches: &ArgMatches,
    name: &str,
    otherwise: u32,
    least: u32,
    most: u32,
) -> Option<u32>
    ensures value { result ≡ number_or otherwise least most (told (rows_of (found_of matches.now)) name.now) }
    ensures given { is_some (told (rows_of (found_of matches.now)) name.now) ≡ true → IfSome result (λ value. least ≤ value) }
    ensures range { IfSome result (λ value. (least ≤ otherwise → least ≤ value) × (otherwise ≤ most → value ≤ most)) }
{
    number_or(otherwise, least, most, told(matches, name))
}
