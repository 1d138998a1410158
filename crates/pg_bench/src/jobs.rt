//! What the words of a measurement ask for.
ghost use Rattle.std.specs.Prelude.{◌≡◌, length};

use crate::layouts::Layout;
use pg_base::Ranks;
use pg_text::number;
use std::num::NonZeroU32;

/// What the words of the command line ask for.
#[derive(Clone, Copy, Debug)]
pub enum Job<'a> {
    /// To measure a division.
    Divide(Division<'a>),
    /// To measure traffic.
    Send(Traffic),
    /// To measure a property map.
    Synchronize(Map<'a>),
    /// To measure an algorithm.
    Run(Run<'a>),
}

/// A graph file, to be read and divided.
#[derive(Clone, Copy, Debug)]
pub struct Division<'a> {
    /// The name of the graph file.
    pub file: &'a str,
    /// Among how many ranks its graph is divided.
    pub ranks: Ranks,
    /// How its vertices are divided.
    pub layout: Layout,
}

/// Ranks that send each other messages.
#[derive(Clone, Copy, Debug)]
pub struct Traffic {
    /// How many ranks there are.
    pub ranks: Ranks,
    /// For how many rounds they send.
    pub rounds: NonZeroU32,
}

/// A graph file, over whose graph a property map is filled and synchronized.
#[derive(Clone, Copy, Debug)]
pub struct Map<'a> {
    /// The name of the graph file.
    pub file: &'a str,
    /// Among how many ranks its graph is divided, in blocks.
    pub ranks: Ranks,
}

/// A graph file, over whose graph an algorithm runs.
#[derive(Clone, Copy, Debug)]
pub struct Run<'a> {
    /// The name of the graph file.
    pub file: &'a str,
    /// Which algorithm.
    pub algorithm: Algorithm,
    /// By how many ranks and threads.
    pub crew: Crew,
}

/// Ranks, and the threads that drive them.
#[derive(Clone, Copy, Debug)]
pub struct Crew {
    /// Among how many ranks a graph is divided, in blocks.
    pub ranks: Ranks,
    /// How many threads there are.
    pub threads: NonZeroU32,
}

/// The algorithms over ranks. Those with a source have the vertex 1.
#[derive(Clone, Copy, Debug)]
pub enum Algorithm {
    /// Least numbers of arcs from the source.
    Bfs,
    /// Least weights from the source, by buckets of this width.
    Sssp(NonZeroU32),
    /// The least vertex of each component.
    Components,
    /// A least spanning forest.
    Forest,
    /// A colour for each vertex.
    Colour,
}

// The width of a bucket where no word says it, as that of `pbgl sssp`.
const USUAL_DELTA: u32 = 32;

impl Algorithm {
    // The algorithm of this name that relaxes, with the width of a bucket where a further word writes it.
    fn relaxing(name: &str, further: &[String]) -> Option<Algorithm> {
        match (name, further.first()) {
            ("bfs", None) => Some(Algorithm::Bfs),
            ("sssp", None) => Some(Algorithm::Sssp(NonZeroU32::new(USUAL_DELTA)?)),
            ("sssp", Some(delta)) => Some(Algorithm::Sssp(NonZeroU32::new(small_number(delta)?)?)),
            ("components", None) => Some(Algorithm::Components),
            _ => None,
        }
    }

    // The algorithm of this name that doesn't relax.
    fn named(name: &str) -> Option<Algorithm> {
        match name {
            "forest" => Some(Algorithm::Forest),
            "colour" => Some(Algorithm::Colour),
            _ => None,
        }
    }
}

impl Crew {
    // The crew whose ranks and threads these words write.
    fn of_words(ranks: &String, threads: &String) -> Option<Crew> {
        Some(Crew {
            ranks: Ranks::new(small_number(ranks)?)?,
            threads: NonZeroU32::new(small_number(threads)?)?,
        })
    }
}

impl<'a> Job<'a> {
    /// The job of the words `FILE RANKS block|random`, `traffic RANKS ROUNDS`, `cells FILE RANKS`,
    /// `relax FILE bfs|sssp|components RANKS THREADS [DELTA]`, where `DELTA` is for sssp alone, 32 where it is not
    /// given, `forest FILE RANKS THREADS` or `colour FILE RANKS THREADS`. `None` for all others.
    pub fn of_words(words: &'a [String]) -> Option<Job<'a>> {
        match words.len() {
            3 => Job::of_three(words),
            4 => Job::of_four(words),
            _ => Job::of_relaxation(words),
        }
    }

    // The job of the words `FILE RANKS block|random`, `traffic RANKS ROUNDS` or `cells FILE RANKS`.
    fn of_three(words: &'a [String]) -> Option<Job<'a>>
        requires { length words.now ≡ 3 }
    {
        if words[0].as_str() == "cells" {
            let ranks = Ranks::new(small_number(&words[2])?)?;
            let file = words[1].as_str();
            return Some(Job::Synchronize(Map { file, ranks }));
        }
        let ranks = Ranks::new(small_number(&words[1])?)?;
        if let Some(layout) = Layout::named(words[2].as_str()) {
            return Some(Job::Divide(Division {
                file: words[0].as_str(),
                ranks,
                layout,
            }));
        }
        if words[0].as_str() != "traffic" {
            return None;
        }
        let rounds = NonZeroU32::new(small_number(&words[2])?)?;
        Some(Job::Send(Traffic { ranks, rounds }))
    }

    // The job of the words `forest FILE RANKS THREADS` or `colour FILE RANKS THREADS`.
    fn of_four(words: &'a [String]) -> Option<Job<'a>>
        requires { length words.now ≡ 4 }
    {
        Some(Job::Run(Run {
            file: words[1].as_str(),
            algorithm: Algorithm::named(words[0].as_str())?,
            crew: Crew::of_words(&words[2], &words[3])?,
        }))
    }

    // The job of the words `relax FILE bfs|sssp|components RANKS THREADS [DELTA]`.
    fn of_relaxation(words: &'a [String]) -> Option<Job<'a>> {
        if words.len() < 5 || words.len() > 6 || words[0].as_str() != "relax" {
            return None;
        }
        let algorithm = Algorithm::relaxing(words[2].as_str(), &words[5..])?;
        let crew = Crew::of_words(&words[3], &words[4])?;
        let file = words[1].as_str();
        Some(Job::Run(Run {
            file,
            algorithm,
            crew,
        }))
    }
}

// The number of 32 bits that a word writes in decimal.
fn small_number(word: &String) -> Option<u32> {
    u32::try_from(number(word.as_bytes())?).ok()
}
