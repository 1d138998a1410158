//! Why no line was taken.
ghost use Rattle.std.specs.Prelude.{◌≡◌};
ghost use Rattle.pg_text.specs.declared.faults.TextFault.TheVariants.{Failed, OutOfMemory};

use pg_outside::Failed as InputFailed;
use std::alloc::{AllocError, AllocFailed};

/// Why no line was taken.
#[derive(Clone, Copy, Debug, PartialEq, Eq)]
pub enum TextFault {
    /// A read of the input failed.
    Failed,
    /// The line of this number, counted from 1, holds a byte past the limit.
    TooLong { line: u64 },
    /// The run is out of memory. No clause says when it comes.
    OutOfMemory,
}

impl From<AllocError> for TextFault {
    ghost from_gives = { λ _ fault. fault ≡ OutOfMemory };

    fn from(_error: AllocError) -> TextFault {
        TextFault::OutOfMemory
    }
}

impl<T: Drop> From<AllocFailed<T>> for TextFault {
    ghost from_gives = { λ _ fault. fault ≡ OutOfMemory };

    fn from(_error: AllocFailed<T>) -> TextFault {
        TextFault::OutOfMemory
    }
}

impl From<InputFailed> for TextFault {
    ghost from_gives = { λ _ fault. fault ≡ Failed };

    fn from(_error: InputFailed) -> TextFault {
        TextFault::Failed
    }
}
