//! Sources of named bytes.
ghost use Rattle.std.specs.Prelude.{◌≡◌, ℕ, ◌≤◌, Bool, IsTrue, Option, List, length, is_ok, OnOk, OnErr, IfOk, IsErr, ◌⊎◌};
ghost use Rattle.std.specs.Io.KnownBytes.{ReadConsumes};
ghost use Rattle.pg_outside.specs.Faults.{Rose};
ghost use Rattle.pg_outside.specs.Files.{NamedBytes, IsMissing, BeginsAt};

use crate::Failed;

/// Named bytes that are read from front to end, one name at a time.
pub trait Inputs {
    /// How many faults were met so far.
    ghost faults: { Self → ℕ };

    /// The files by name, where this source shows them.
    ghost files: { Self → Option (List NamedBytes) };

    /// Whether a name was begun and nothing failed since in `begin`.
    ghost begun: { Self → Bool };

    /// The bytes left of the name that was begun last, where this source shows them.
    ghost left: { Self → Option (List ℕ) };

    /// Turns to the start of the contents of `name`. After an `Err` no name is begun. An `Err` comes only
    /// where a fault was counted or the name is missing; a missing name counts no fault. The files stay the same.
    fn begin(&mut self, name: &str) -> Result<(), Failed>
        ensures later { faults self.old ≤ faults self.new }
        ensures cause { OnErr result
            (Rose (faults self.old) (faults self.new) ⊎ IsMissing name.now (files self.old)) }
        ensures missing { IsMissing name.now (files self.old) →
            IsErr result × (faults self.new ≡ faults self.old) }
        ensures begun { begun self.new ≡ is_ok result }
        ensures start { OnOk result (BeginsAt name.now (files self.old) (left self.new)) }
        ensures files { files self.new ≡ files self.old };

    /// Fills a front of `buf` with the next bytes and answers how many. For a `buf` that is not empty, 0
    /// means that no byte is left. An `Err` comes only where a fault was counted, and the bytes left stay.
    fn read(&mut self, buf: &mut [u8]) -> Result<usize, Failed>
        requires { IsTrue (begun self.old) }
        ensures later { faults self.old ≤ faults self.new }
        ensures cause { OnErr result (Rose (faults self.old) (faults self.new)) }
        ensures within { IfOk result (λ n. n ≤ length buf.old) }
        ensures bytes { ReadConsumes (left self.old) (left self.new) result buf.new }
        ensures begun { begun self.new ≡ begun self.old }
        ensures files { files self.new ≡ files self.old };
}
