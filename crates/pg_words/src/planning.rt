//! From words to a plan.
ghost use Rattle.std.specs.Prelude.{◌≡◌, Some, None, Err, IfOk, option_map, string_bytes};
ghost use Rattle.clap.specs.Matches.{found_of};
ghost use Rattle.clap.specs.Walk.{rows_of};
ghost use Rattle.pg_words.specs.CommandLine.{found_in, faults_in};
ghost use Rattle.pg_words.specs.Plan.{AreInRange, meaning, meaning_of, numbers_of, plan_as, plan_in, plan_of, texts};

use crate::command::matches;
use crate::needs::algorithm;
use crate::plans::Numbers;
use crate::ranges::numbers;
use crate::told::told;
use crate::{Algorithm, Plan, PlanFault};
use clap::ArgMatches;
use std::alloc::{AllocError, Global};

/// The plan that the words after the program's name mean. `BadWords` comes only where they mean none; `OutOfMemory` may
/// come with any words.
///
/// The words are the algorithm, its file and options, each of which takes one value, as `--source 1` or
/// `--source=1`. Options stand anywhere up to a word `--`. These have a plan, and nothing else has:
///
/// - `bfs FILE --source V`
/// - `sssp FILE --source V [--delta D]`
/// - `components FILE`
/// - `forest FILE`
/// - `colour FILE`
/// - `grid --width W --height H --seed S [--delta D]`
///
/// each with `[--ranks P] [--threads T] [--capacity C]` and all but `grid` with `[--parts FILE2]`, for P ranks (1 to
/// 32; 1 without the word) on T threads (1 to 32; as many as ranks without the word), with lanes of C messages (1 to
/// 1,024; 1,024 without the word) and the partition file FILE2, whose name may be empty. D is 1 to 4,294,967,295 (32
/// without the word). W and H are at least 1, and their product is at most 1,048,576. `delta` is 0 in the plan of
/// another algorithm than `sssp` and `grid`, and `source` is 0 in that of `components`, `forest`, `colour` and `grid`.
/// Each number is one to ten decimal digits; V and S are worth at most 4,294,967,295. A source of 0 is no bad word.
pub fn plan(alloc: Global, words: &[String]) -> Result<Plan, PlanFault>
    ensures planned { IfOk result (λ p. plan_of (texts words.now) ≡ Some (meaning_of p)) }
    ensures bad_words { result ≡ Err PlanFault.BadWords → plan_of (texts words.now) ≡ None }
    ensures range { IfOk result (λ p. AreInRange p.algorithm (numbers_of p)) }
{
    let matches = matches(alloc, words)?;
    found_plan(alloc, &matches)
}

/// The plan that what clap found means.
fn found_plan(alloc: Global, matches: &ArgMatches) -> Result<Plan, PlanFault>
    ensures planned { IfOk result (λ p. plan_in (rows_of (found_of matches.now)) ≡ Some (meaning_of p)) }
    ensures bad_words { result ≡ Err PlanFault.BadWords → plan_in (rows_of (found_of matches.now)) ≡ None }
    ensures range { IfOk result (λ p. AreInRange p.algorithm (numbers_of p)) }
{
    match algorithm(matches) {
        Some(algorithm) => plan_for(alloc, algorithm, matches),
        None => Err(PlanFault::BadWords),
    }
}

/// The plan for this algorithm.
fn plan_for(alloc: Global, algorithm: Algorithm, matches: &ArgMatches) -> Result<Plan, PlanFault>
    ensures planned { IfOk result (λ p. plan_as algorithm (rows_of (found_of matches.now)) ≡ Some (meaning_of p)) }
    ensures bad_words { result ≡ Err PlanFault.BadWords → plan_as algorithm (rows_of (found_of matches.now)) ≡ None }
    ensures range { IfOk result (λ p. AreInRange p.algorithm (numbers_of p)) }
{
    match numbers(algorithm, matches) {
        Some(numbers) => filled_plan(alloc, algorithm, numbers, matches),
        None => Err(PlanFault::BadWords),
    }
}

/// The plan with these numbers and the names that the words give.
fn filled_plan(
    alloc: Global,
    algorithm: Algorithm,
    numbers: Numbers,
    matches: &ArgMatches,
) -> Result<Plan, PlanFault>
    ensures planned { IfOk result (λ p. meaning_of p ≡ meaning (rows_of (found_of matches.now)) algorithm numbers) }
    ensures numbers { IfOk result (λ p. (p.algorithm ≡ algorithm) × (numbers_of p ≡ numbers)) }
    ensures memory { result ≡ Err PlanFault.BadWords → ⊥ }
{
    let file = String::from_str(alloc, told(matches, "file").unwrap_or(""))?;
    let parts = owned(alloc, told(matches, "parts"))?;
    Ok(Plan {
        algorithm,
        file,
        ranks: numbers.crew.ranks,
        threads: numbers.crew.threads,
        parts,
        source: numbers.search.source,
        delta: numbers.search.delta,
        capacity: numbers.crew.capacity,
        width: numbers.size.width,
        height: numbers.size.height,
        seed: numbers.size.seed,
    })
}

/// A copy of a word that may be there.
fn owned(alloc: Global, word: Option<&str>) -> Result<Option<String>, AllocError>
    ensures { IfOk result (λ copy. option_map string_bytes copy ≡ option_map (λ s. s.now) word.entry) }
{
    match word {
        Some(word) => Ok(Some(String::from_str(alloc, word)?)),
        None => Ok(None),
    }
}
