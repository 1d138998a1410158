//! Why a partition file is refused.
ghost use Rattle.std.specs.Prelude.{◌≡◌};
ghost use Rattle.pg_metis.specs.declared.parts_faults.PartsFault.TheVariants.{OutOfMemory, Refused};
ghost use Rattle.pg_metis.specs.PartsAnswers.{parts_from_text};

use pg_text::TextFault;
use std::alloc::AllocError;

/// What is wrong with a line of a partition file.
#[derive(Clone, Copy, Debug, PartialEq, Eq)]
pub enum PartsKind {
    /// The line of a vertex has no word, or its first word is no number.
    BadNumber,
    /// The first word isn't below the number of ranks.
    OutOfRange,
    /// The line of a vertex has a second word, or a line after those of the vertices has a word.
    ExtraText,
    /// There are fewer lines than vertices, comments aside; the line is the number of all lines plus 1.
    MissingLines,
    /// The line holds a byte past the first 536,870,912 bytes.
    TooLong,
}

/// Why no list of ranks was read.
#[derive(Clone, Copy, Debug, PartialEq, Eq)]
pub enum PartsFault {
    /// The file isn't a partition file: its first fault in the order of docs/FORMAT.md, as the line, counted
    /// from 1, and what is wrong there.
    Refused { line: u64, kind: PartsKind },
    /// A read failed.
    Failed,
    /// Out of memory. No clause says when it comes.
    OutOfMemory,
}

/// What is wrong with the lines of a file, and in which.
#[derive(Clone, Copy)]
pub(crate) struct PartsLineFault {
    pub line: u64,
    pub kind: PartsKind,
}

impl From<PartsLineFault> for PartsFault {
    ghost from_gives = { λ fault gives. gives ≡ Refused fault.line fault.kind };

    fn from(fault: PartsLineFault) -> PartsFault {
        PartsFault::Refused {
            line: fault.line,
            kind: fault.kind,
        }
    }
}

impl From<AllocError> for PartsFault {
    ghost from_gives = { λ _ fault. fault ≡ OutOfMemory };

    fn from(_error: AllocError) -> PartsFault {
        PartsFault::OutOfMemory
    }
}

impl From<TextFault> for PartsFault {
    ghost from_gives = { λ fault gives. gives ≡ parts_from_text fault };

    fn from(fault: TextFault) -> PartsFault {
        match fault {
            TextFault::Failed => PartsFault::Failed,
            TextFault::TooLong { line } => PartsFault::Refused {
                line,
                kind: PartsKind::TooLong,
            },
            TextFault::OutOfMemory => PartsFault::OutOfMemory,
        }
    }
}
