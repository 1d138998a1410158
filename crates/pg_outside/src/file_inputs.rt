//! The system's files as a source of named bytes.
ghost use Rattle.std.specs.Prelude.{◌≡◌, ◌≤◌, length, false, None, is_ok, is_some, not, OnOk, OnErr, IfOk, IsErr, IsTrue, ◌⊎◌};
ghost use Rattle.std.specs.Io.KnownBytes.{ReadConsumes};
ghost use Rattle.pg_outside.specs.Counts.{counted_if};
ghost use Rattle.pg_outside.specs.Faults.{Rose};
ghost use Rattle.pg_outside.specs.OpenFile.{left_of};

use crate::faults::fault;
use crate::{Failed, Inputs};
use std::fs;
use std::io::Read;
use std::rt::Files;

/// The files that a runtime reaches. Contracts don't see their contents, and see the bytes left of the file that was
/// begun last only where the runtime's files show them; those of the system don't.
#[derive(Drop)]
pub struct FileInputs<R: Files> {
    rt: R,
    file: Option<R::File>,
    faults: u64,
}

impl<R: Files> FileInputs<R> {
    ghost use Rattle.pg_outside.specs.FileInputs.{faults_of, is_begun};

    /// The files that this runtime reaches.
    pub fn new(rt: R) -> FileInputs<R>
        ensures faults { faults_of result ≡ 0 }
        ensures begun { is_begun result ≡ false }
    {
        FileInputs {
            rt,
            file: None,
            faults: 0,
        }
    }
}

impl<R: Files> Inputs for FileInputs<R> {
    ghost use Rattle.pg_outside.specs.FileInputs.{faults_of, file_of, is_begun};

    ghost faults = { λ inputs. inputs.faults };

    ghost files = { λ _. None };

    ghost begun = { λ inputs. is_some inputs.file };

    ghost left = { λ inputs. left_of R.File.remaining inputs.file };

    /// Opens the file of this name. An error of the system counts one fault, and no name is begun after it.
    fn begin(&mut self, name: &str) -> Result<(), Failed>
        ensures later { faults_of self.old ≤ faults_of self.new }
        ensures cause { OnErr result (Rose (faults_of self.old) (faults_of self.new)) }
        ensures begun { is_begun self.new ≡ is_ok result }
        ensures count { faults_of self.new ≡ counted_if (not (is_ok result)) (faults_of self.old) }
    {
        match fs::open(&self.rt, name) {
            Ok(file) => {
                self.file = Some(file);
                Ok(())
            }
            Err(_) => {
                self.file = None;
                Err(fault(&mut self.faults))
            }
        }
    }

    /// One read of the file into the whole of `buf`. An error of the system counts one fault.
    fn read(&mut self, buf: &mut [u8]) -> Result<usize, Failed>
        requires { IsTrue (is_begun self.old) }
        ensures later { faults_of self.old ≤ faults_of self.new }
        ensures cause { OnErr result (Rose (faults_of self.old) (faults_of self.new)) }
        ensures within { IfOk result (λ n. n ≤ length buf.old) }
        ensures bytes { ReadConsumes (left_of R.File.remaining (file_of self.old))
            (left_of R.File.remaining (file_of self.new)) result buf.new }
        ensures begun { is_begun self.new ≡ is_begun self.old }
        ensures count { faults_of self.new ≡ counted_if (not (is_ok result)) (faults_of self.old) }
    {
        let Some(file) = &mut self.file else {
            unreachable!()
        };
        match file.read(buf) {
            Ok(count) => Ok(count),
            Err(_) => Err(fault(&mut self.faults)),
        }
    }
}
