//! Which words each algorithm takes, as `specs/Needs.antt` says.
ghost use Rattle.std.specs.Prelude.{◌≡◌, option_map};
ghost use Rattle.clap.specs.Matches.{found_of};
ghost use Rattle.clap.specs.Walk.{rows_of};
ghost use Rattle.pg_words.specs.Needs.{algorithm_in, algorithm_named, delta_need, file_need, fits, fits_files, fits_task, is_met, parts_need, size_need, source_need};

use crate::Algorithm;
use crate::plans::Need;
use crate::told::told;
use clap::ArgMatches;

/// The algorithm of this name.
#[tactic(auto, unfolding(crate::specs::Needs::algorithm_named))]
fn algorithm_named(word: &str) -> Option<Algorithm>
    ensures { result ≡ algorithm_named word.now }
{
    match word {
        "bfs" => Some(Algorithm::Bfs),
        "sssp" => Some(Algorithm::Sssp),
        "components" => Some(Algorithm::Components),
        "forest" => Some(Algorithm::Forest),
        "colour" => Some(Algorithm::Colour),
        "grid" => Some(Algorithm::Grid),
        _ => None,
    }
}

/// Whether the algorithm takes a graph file.
fn file_need(algorithm: Algorithm) -> Need
    ensures { result ≡ file_need algorithm }
{
    match algorithm {
        Algorithm::Grid => Need::Refused,
        _ => Need::Required,
    }
}

/// Whether the algorithm takes a partition file.
fn parts_need(algorithm: Algorithm) -> Need
    ensures { result ≡ parts_need algorithm }
{
    match algorithm {
        Algorithm::Grid => Need::Refused,
        _ => Need::Optional,
    }
}

/// Whether the algorithm takes a source.
fn source_need(algorithm: Algorithm) -> Need
    ensures { result ≡ source_need algorithm }
{
    match algorithm {
        Algorithm::Bfs | Algorithm::Sssp => Need::Required,
        _ => Need::Refused,
    }
}

/// Whether the algorithm takes a delta.
pub fn delta_need(algorithm: Algorithm) -> Need
    ensures { result ≡ delta_need algorithm }
{
    match algorithm {
        Algorithm::Sssp | Algorithm::Grid => Need::Optional,
        _ => Need::Refused,
    }
}

/// Whether the algorithm takes a width, a height and a seed.
fn size_need(algorithm: Algorithm) -> Need
    ensures { result ≡ size_need algorithm }
{
    match algorithm {
        Algorithm::Grid => Need::Required,
        _ => Need::Refused,
    }
}

/// The algorithm that the words name.
#[tactic(auto, unfolding(crate::specs::Needs::algorithm_in))]
pub fn algorithm(matches: &ArgMatches) -> Option<Algorithm>
    ensures { result ≡ algorithm_in (rows_of (found_of matches.now)) }
{
    algorithm_named(told(matches, "algorithm")?)
}

/// Whether a word is there where it is required, and isn't where it is refused.
fn is_met(need: Need, word: Option<&str>) -> bool
    ensures { result ≡ is_met need (option_map (λ s. s.now) word.entry) }
{
    match need {
        Need::Required => word.is_some(),
        Need::Optional => true,
        Need::Refused => word.is_none(),
    }
}

/// Whether the words on which files are read are those that the algorithm takes.
#[tactic(auto, unfolding(crate::specs::Needs::fits_files))]
fn fits_files(algorithm: Algorithm, matches: &ArgMatches) -> bool
    ensures { result ≡ fits_files algorithm (rows_of (found_of matches.now)) }
{
    is_met(file_need(algorithm), told(matches, "file"))
        && is_met(parts_need(algorithm), told(matches, "parts"))
}

/// Whether the words on what is computed are those that the algorithm takes.
#[tactic(auto, unfolding(crate::specs::Needs::fits_task))]
fn fits_task(algorithm: Algorithm, matches: &ArgMatches) -> bool
    ensures { result ≡ fits_task algorithm (rows_of (found_of matches.now)) }
{
    let size_need = size_need(algorithm);
    is_met(source_need(algorithm), told(matches, "source"))
        && is_met(delta_need(algorithm), told(matches, "delta"))
        && is_met(size_need, told(matches, "width"))
        && is_met(size_need, told(matches, "height"))
        && is_met(size_need, told(matches, "seed"))
}

/// Whether the words that are there are those that the algorithm takes.
#[tactic(auto, unfolding(crate::specs::Needs::fits))]
pub fn fits(algorithm: Algorithm, matches: &ArgMatches) -> bool
    ensures { result ≡ fits algorithm (rows_of (found_of matches.now)) }
{
    fits_files(algorithm, matches) && fits_task(algorithm, matches)
}
