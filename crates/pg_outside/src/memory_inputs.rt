//! Named bytes in memory, as a source whose calls can be made to fail.
ghost use Rattle.std.specs.Prelude.{◌≡◌, ◌==◌, ◌<◌, ◌≤◌, length};
ghost use Rattle.std.specs.List.{list_any};
ghost use Rattle.std.specs.Option.{ForSome};
ghost use Rattle.pg_outside.specs.Counts.{counted};
ghost use Rattle.pg_outside.specs.NamedFiles.{named_files, bytes_at};

use crate::faults::fault;
use crate::named_files::{bytes_at, copy_piece, place_of};
use crate::{Failed, Inputs};

/// Where the next read begins.
#[derive(Clone, Copy)]
struct Place {
    file: usize,
    offset: usize,
}

/// Named bytes in memory, which are given in pieces, and whose calls fail where a list says so.
#[derive(Drop)]
pub struct MemoryInputs {
    files: Vec<(String, Vec<u8>)>,
    piece: usize,
    fails: Vec<u64>,
    call: u64,
    faults: u64,
    begun: Option<Place>,
    ghost gives_bytes: { 1 ≤ piece },
    ghost in_files: { ForSome begun (λ place. place.file < length files.items) },
    ghost in_bytes: { ForSome begun (λ place. place.offset
        ≤ length (bytes_at (named_files files.items) place.file)) },
}

impl MemoryInputs {
    ghost use Rattle.std.specs.Prelude.{false};
    ghost use Rattle.pg_outside.specs.MemoryInputs.{files_of, piece_of, fails_of, call_of, faults_of, is_begun};

    /// These files, by name; of two with one name the first counts. A read gives at most `piece` bytes.
    /// Calls of `begin` and `read` are numbered together from 1, and a call whose number is in `fails` fails.
    pub fn new(files: Vec<(String, Vec<u8>)>, piece: usize, fails: Vec<u64>) -> MemoryInputs
        requires { 1 ≤ piece }
        ensures files { files_of result ≡ named_files files.items }
        ensures piece { piece_of result ≡ piece }
        ensures fails { fails_of result ≡ fails.items }
        ensures first { call_of result ≡ 1 }
        ensures faults { faults_of result ≡ 0 }
        ensures begun { is_begun result ≡ false }
    {
        MemoryInputs {
            files,
            piece,
            fails,
            call: 1,
            faults: 0,
            begun: None,
        }
    }
}

impl Inputs for MemoryInputs {
    ghost use Rattle.std.specs.Prelude.{Some, None, is_ok, is_some, not, OnOk, OnErr, IfOk, MatchResult, drop, IsErr, IsTrue, ◌⊎◌, ◌↔◌, ◌≢◌};
    ghost use Rattle.std.specs.Io.KnownBytes.{ReadConsumes};
    ghost use Rattle.pg_outside.specs.Counts.{counted_if};
    ghost use Rattle.pg_outside.specs.Faults.{Rose};
    ghost use Rattle.pg_outside.specs.Files.{contents_of, IsMissing, BeginsAt};
    ghost use Rattle.pg_outside.specs.MemoryInputs.{files_of, piece_of, fails_of, call_of, fails_next, faults_of, is_begun, left_of, amount_of};

    ghost faults = { λ inputs. inputs.faults };

    ghost files = { λ inputs. Some (files_of inputs) };

    ghost begun = { λ inputs. is_some inputs.begun };

    ghost left = { λ inputs. left_of inputs };

    /// Fails exactly where the name is missing or the call is to fail, and counts a fault only where the
    /// name is there.
    fn begin(&mut self, name: &str) -> Result<(), Failed>
        ensures later { faults_of self.old ≤ faults_of self.new }
        ensures cause { OnErr result
            (Rose (faults_of self.old) (faults_of self.new) ⊎ IsMissing name.now (Some (files_of self.old))) }
        ensures missing { IsMissing name.now (Some (files_of self.old)) →
            IsErr result × (faults_of self.new ≡ faults_of self.old) }
        ensures begun { is_begun self.new ≡ is_ok result }
        ensures start { OnOk result (BeginsAt name.now (Some (files_of self.old)) (left_of self.new)) }
        ensures files { Some (files_of self.new) ≡ Some (files_of self.old) }
        ensures fails { IsErr result
            ↔ (IsTrue (fails_next self.old) ⊎ IsMissing name.now (Some (files_of self.old))) }
        ensures count { contents_of name.now (files_of self.old) ≢ None →
            faults_of self.new ≡ counted_if (fails_next self.old) (faults_of self.old) }
        ensures untold { OnErr result (left_of self.new ≡ None) }
        ensures call { call_of self.new ≡ counted (call_of self.old) }
        ensures piece_stays { piece_of self.new ≡ piece_of self.old }
        ensures fails_stay { fails_of self.new ≡ fails_of self.old }
    {
        let fails = take_call(&mut self.call, self.fails.as_slice());
        self.begun = None;
        let Some(file) = place_of(self.files.as_slice(), name) else {
            return Err(Failed);
        };
        if fails {
            return Err(fault(&mut self.faults));
        }
        self.begun = Some(Place { file, offset: 0 });
        Ok(())
    }

    /// Fails exactly where the call is to fail. Otherwise gives a whole piece, or as much as `buf` takes or
    /// is left, where that is less.
    fn read(&mut self, buf: &mut [u8]) -> Result<usize, Failed>
        requires { IsTrue (is_begun self.old) }
        ensures later { faults_of self.old ≤ faults_of self.new }
        ensures cause { OnErr result (Rose (faults_of self.old) (faults_of self.new)) }
        ensures within { IfOk result (λ n. n ≤ length buf.old) }
        ensures bytes { ReadConsumes (left_of self.old) (left_of self.new) result buf.new }
        ensures begun { is_begun self.new ≡ is_begun self.old }
        ensures files { Some (files_of self.new) ≡ Some (files_of self.old) }
        ensures fails { is_ok result ≡ not (fails_next self.old) }
        ensures amount { IfOk result
            (λ n. n ≡ amount_of (piece_of self.old) (length buf.old) (left_of self.old)) }
        ensures count { faults_of self.new ≡ counted_if (fails_next self.old) (faults_of self.old) }
        ensures rest { MatchResult result (λ n. drop n buf.new ≡ drop n buf.old)
            (λ _. buf.new ≡ buf.old) }
        ensures call { call_of self.new ≡ counted (call_of self.old) }
        ensures piece_stays { piece_of self.new ≡ piece_of self.old }
        ensures fails_stay { fails_of self.new ≡ fails_of self.old }
    {
        let Some(place) = self.begun else {
            unreachable!()
        };
        if take_call(&mut self.call, self.fails.as_slice()) {
            return Err(fault(&mut self.faults));
        }
        let bytes = bytes_at(self.files.as_slice(), place.file);
        let count = copy_piece(bytes, place.offset, self.piece, buf);
        self.begun = Some(Place {
            file: place.file,
            offset: place.offset + count,
        });
        Ok(count)
    }
}

/// Takes the number of this call, and answers whether it is to fail.
fn take_call(call: &mut u64, fails: &[u64]) -> bool
    ensures fails { result ≡ list_any (λ number. number == call.old) fails.now }
    ensures call { call.new ≡ counted call.old }
{
    let number = *call;
    *call = number.saturating_add(1);
    fails.contains(&number)
}
