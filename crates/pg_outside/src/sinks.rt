//! Sinks of text.
ghost use Rattle.std.specs.Prelude.{ℕ, ◌≤◌, Option, List, OnOk, OnErr};
ghost use Rattle.std.specs.Io.KnownBytes.{Appends};
ghost use Rattle.pg_outside.specs.Faults.{Rose};
ghost use Rattle.pg_outside.specs.Written.{AppendsFront};

use crate::Failed;

/// A text that grows at its end.
pub trait Sink {
    /// How many faults were met so far.
    ghost faults: { Self → ℕ };

    /// The text so far, where this sink shows it.
    ghost text: { Self → Option (List ℕ) };

    /// Appends `bytes`. An `Err` comes only where a fault was counted; a front of `bytes` was appended then, which may
    /// be empty.
    fn write_all(&mut self, bytes: &[u8]) -> Result<(), Failed>
        ensures later { faults self.old ≤ faults self.new }
        ensures cause { OnErr result (Rose (faults self.old) (faults self.new)) }
        ensures ok { OnOk result (Appends (text self.old) (text self.new) bytes.now) }
        ensures err { OnErr result (AppendsFront (text self.old) (text self.new) bytes.now) };
}
