//! Why a graph file is refused.
ghost use Rattle.std.specs.Prelude.{◌≡◌};
ghost use Rattle.pg_metis.specs.declared.faults.GraphFault.TheVariants.{OutOfMemory, Refused};
ghost use Rattle.pg_metis.specs.Answers.{from_text};

use pg_text::TextFault;
use std::alloc::{AllocError, AllocFailed};

/// What is wrong with a line of a graph file.
#[derive(Clone, Copy, Debug, PartialEq, Eq)]
pub enum Kind {
    /// There is no line but comments; the line is the number of lines plus 1.
    NoHeader,
    /// The header has too few or too many words.
    HeaderWords,
    /// A word that should be a number is none.
    BadNumber,
    /// There are more than 1,048,576 vertices or 8,388,608 edges.
    OverLimit,
    /// The format isn't one to three digits 0 or 1.
    BadFormat,
    /// The line of a vertex ends where a number should stand.
    ShortLine,
    /// A neighbour is 0 or above n.
    OutOfRange,
    /// A neighbour is the vertex of the line itself.
    SelfEdge,
    /// A neighbour stood earlier in the line.
    Repeated,
    /// An edge weighs 0.
    ZeroWeight,
    /// Fewer lines than vertices follow the header, comments aside; the line is the number of all lines
    /// plus 1.
    MissingLines,
    /// A line after those of the vertices has a word.
    ExtraText,
    /// The neighbours in all lines are not 2m in number; the line is the header's.
    WrongCount,
    /// The line of a vertex names a neighbour whose line doesn't name it.
    NoMirror,
    /// Two lines give one edge different weights.
    MirrorWeight,
    /// The line holds a byte past the first 536,870,912 bytes.
    TooLong,
}

/// Why no graph was read.
#[derive(Clone, Copy, Debug, PartialEq, Eq)]
pub enum GraphFault {
    /// The file isn't a graph file: its first fault in the order of docs/FORMAT.md, as the line, counted from
    /// 1, and what is wrong there.
    Refused { line: u64, kind: Kind },
    /// A read failed.
    Failed,
    /// Out of memory. No clause says when it comes.
    OutOfMemory,
}

/// What is wrong with the lines of a file, and in which.
#[derive(Clone, Copy)]
pub(crate) struct LineFault {
    pub line: u64,
    pub kind: Kind,
}

impl From<LineFault> for GraphFault {
    ghost from_gives = { λ fault gives. gives ≡ Refused fault.line fault.kind };

    fn from(fault: LineFault) -> GraphFault {
        GraphFault::Refused {
            line: fault.line,
            kind: fault.kind,
        }
    }
}

impl From<AllocError> for GraphFault {
    ghost from_gives = { λ _ fault. fault ≡ OutOfMemory };

    fn from(_error: AllocError) -> GraphFault {
        GraphFault::OutOfMemory
    }
}

impl<T: Drop> From<AllocFailed<T>> for GraphFault {
    ghost from_gives = { λ _ fault. fault ≡ OutOfMemory };

    fn from(_error: AllocFailed<T>) -> GraphFault {
        GraphFault::OutOfMemory
    }
}

impl From<TextFault> for GraphFault {
    ghost from_gives = { λ fault gives. gives ≡ from_text fault };

    fn from(fault: TextFault) -> GraphFault {
        match fault {
            TextFault::Failed => GraphFault::Failed,
            TextFault::TooLong { line } => GraphFault::Refused {
                line,
                kind: Kind::TooLong,
            },
            TextFault::OutOfMemory => GraphFault::OutOfMemory,
        }
    }
}
