//! What the words of the command line ask for.
ghost use Rattle.std.specs.Prelude.{◌≤◌};

use pg_text::number;

// The greatest capacity of a lane.
const MOST_CAPACITY: u32 = 1024;

/// A queue of one of three kinds.
#[derive(Clone, Copy, Debug)]
pub enum Kind {
    /// A lane of the library.
    Lane,
    /// The kit's ring of one producer and one consumer.
    Ring,
    /// The kit's bounded queue of many.
    Array,
}

/// What the words ask for.
#[derive(Clone, Copy, Debug)]
pub struct Job {
    /// Of which kind the queue is.
    pub kind: Kind,
    /// How many messages it holds at most.
    pub capacity: u32,
    /// How many go through it.
    pub messages: u32,
    ghost at_least: { 1 ≤ capacity },
    ghost at_most: { capacity ≤ 1024 },
}

impl Job {
    /// The job of the words `lane|rtrb|crossbeam CAPACITY MESSAGES`, with a capacity of 1 to 1,024. `None` for all
    /// others.
    pub fn of_words(words: &[String]) -> Option<Job> {
        if words.len() != 3 {
            return None;
        }
        let kind = Kind::named(words[0].as_str())?;
        let capacity = small_number(&words[1])?;
        let messages = small_number(&words[2])?;
        if capacity == 0 || capacity > MOST_CAPACITY {
            return None;
        }
        Some(Job {
            kind,
            capacity,
            messages,
        })
    }
}

impl Kind {
    fn named(name: &str) -> Option<Kind> {
        match name {
            "lane" => Some(Kind::Lane),
            "rtrb" => Some(Kind::Ring),
            "crossbeam" => Some(Kind::Array),
            _ => None,
        }
    }
}

// The number of 32 bits that a word writes in decimal.
fn small_number(word: &String) -> Option<u32> {
    u32::try_from(number(word.as_bytes())?).ok()
}
