//! The numbers of a plan, each in its range.
ghost use Rattle.std.specs.Prelude.{◌≡◌, ◌≤◌, ◌*◌, true, codes, is_some, IfSome};
ghost use Rattle.clap.specs.Matches.{found_of};
ghost use Rattle.clap.specs.Walk.{rows_of};
ghost use Rattle.pg_words.specs.CommandLine.{told};
ghost use Rattle.pg_words.specs.Needs.{delta_need};
ghost use Rattle.pg_words.specs.Plan.{AreInRange, IsCrewInRange, crew_in, numbers_in, search_in, size_in, usual_delta};

use crate::Algorithm;
use crate::needs::{delta_need, fits};
use crate::plans::{Crew, Need, Numbers, Search, Size};
use crate::told::number_told;
use clap::ArgMatches;

/// Who does the work: as many threads as ranks, where no word says otherwise.
#[tactic(auto, unfolding(crate::specs::Plan::crew_in))]
fn crew(matches: &ArgMatches) -> Option<Crew>
    ensures value { result ≡ crew_in (rows_of (found_of matches.now)) }
    ensures range { IfSome result IsCrewInRange }
{
    let ranks = number_told(matches, "ranks", 1, 1, 32)?;
    let threads = number_told(matches, "threads", ranks, 1, 32)?;
    let capacity = number_told(matches, "capacity", 1024, 1, 1024)?;
    Some(Crew {
        ranks,
        threads,
        capacity,
    })
}

/// From where distances count, and by which buckets.
#[tactic(auto, unfolding(crate::specs::Plan::search_in))]
fn search(algorithm: Algorithm, matches: &ArgMatches) -> Option<Search>
    ensures value { result ≡ search_in algorithm (rows_of (found_of matches.now)) }
    ensures range { delta_need algorithm ≡ Need.Optional → IfSome result (λ search. 1 ≤ search.delta) }
{
    let usual = usual_delta(delta_need(algorithm));
    let source = number_told(matches, "source", 0, 0, u32::MAX)?;
    let delta = number_told(matches, "delta", usual, 1, u32::MAX)?;
    Some(Search { source, delta })
}

/// The grid that is made, of at most 1,048,576 vertices.
#[tactic(auto, unfolding(crate::specs::Plan::size_in))]
fn size(matches: &ArgMatches) -> Option<Size>
    ensures value { result ≡ size_in (rows_of (found_of matches.now)) }
    ensures sides { is_some (told (rows_of (found_of matches.now)) (codes "width")) ≡ true
        → is_some (told (rows_of (found_of matches.now)) (codes "height")) ≡ true
        → IfSome result (λ size. (1 ≤ size.width) × (1 ≤ size.height)) }
    ensures range { IfSome result (λ size. size.width * size.height ≤ 1048576) }
{
    let width = number_told(matches, "width", 0, 1, u32::MAX)?;
    let height = number_told(matches, "height", 0, 1, u32::MAX)?;
    let seed = number_told(matches, "seed", 0, 0, u32::MAX)?;
    if u64::from(width) * u64::from(height) <= 1_048_576 {
        Some(Size {
            width,
            height,
            seed,
        })
    } else {
        None
    }
}

/// The delta of an algorithm that takes one is 32 where no word says otherwise.
fn usual_delta(need: Need) -> u32
    ensures value { result ≡ usual_delta need }
    ensures optional { need ≡ Need.Optional → result ≡ 32 }
{
    match need {
        Need::Refused => 0,
        _ => 32,
    }
}

/// The numbers of this algorithm's plan, where the words are those that it takes.
#[tactic(auto, unfolding(crate::specs::Plan::numbers_in))]
pub fn numbers(algorithm: Algorithm, matches: &ArgMatches) -> Option<Numbers>
    ensures value { result ≡ numbers_in algorithm (rows_of (found_of matches.now)) }
    ensures range { IfSome result (AreInRange algorithm) }
{
    if !fits(algorithm, matches) {
        return None;
    }
    let crew = crew(matches)?;
    let search = search(algorithm, matches)?;
    let size = size(matches)?;
    Some(Numbers { crew, search, size })
}
