//! A text in memory, as a sink whose calls can be made to fail.
ghost use Rattle.std.specs.Prelude.{◌≡◌, ◌+◌, ◌≤◌, ◌++◌, length, vec_len, vec_capacity};

use crate::faults::fault;
use crate::fronts::{front_of, planned_front};
use crate::{Failed, Sink};
use pg_base::OutOfMemory;
use std::alloc::Global;

/// A text of fixed room in memory, whose calls fail where a list says so.
#[derive(Drop)]
pub struct MemorySink {
    text: Vec<u8>,
    room: usize,
    fails: Vec<(u64, usize)>,
    call: u64,
    faults: u64,
    ghost reserved: { room ≤ vec_capacity text },
    ghost within_room: { vec_len text ≤ room },
}

impl MemorySink {
    ghost use Rattle.std.specs.Prelude.{[], IfOk};
    ghost use Rattle.pg_outside.specs.MemorySink.{text_of, room_of, fails_of, call_of, faults_of};

    /// A sink that takes `room` bytes in all, whose memory is allocated here. `Err` says that the run is out of
    /// memory. Calls of `write_all` are numbered from 1. For a pair (k, j) of `fails`, call k appends the first j
    /// bytes of its piece, or all if there are fewer, and fails; of several pairs for one call the first counts.
    pub fn new(
        alloc: Global,
        room: usize,
        fails: Vec<(u64, usize)>,
    ) -> Result<MemorySink, OutOfMemory>
        ensures empty { IfOk result (λ sink. text_of sink ≡ []) }
        ensures room { IfOk result (λ sink. room_of sink ≡ room) }
        ensures fails { IfOk result (λ sink. fails_of sink ≡ fails.items) }
        ensures first { IfOk result (λ sink. call_of sink ≡ 1) }
        ensures faults { IfOk result (λ sink. faults_of sink ≡ 0) }
    {
        match Vec::with_capacity(alloc, room) {
            Ok(text) => Ok(MemorySink {
                text,
                room,
                fails,
                call: 1,
                faults: 0,
            }),
            Err(_) => Err(OutOfMemory),
        }
    }

    /// The text so far.
    pub fn text(&self) -> &[u8]
        ensures { result.now ≡ text_of self.now }
    {
        self.text.as_slice()
    }
}

impl Sink for MemorySink {
    ghost use Rattle.std.specs.Prelude.{Some, take, is_ok, not, OnOk, OnErr};
    ghost use Rattle.std.specs.Io.KnownBytes.{Appends};
    ghost use Rattle.pg_outside.specs.Counts.{counted, counted_if};
    ghost use Rattle.pg_outside.specs.Faults.{Rose};
    ghost use Rattle.pg_outside.specs.MemorySink.{text_of, room_of, fails_of, call_of, faults_of, next_front};
    ghost use Rattle.pg_outside.specs.Written.{AppendsFront};

    ghost faults = { λ sink. sink.faults };

    ghost text = { λ sink. Some sink.text.items };

    /// Appends the front that `next_front` gives, and fails where it says so. Allocates nothing.
    fn write_all(&mut self, bytes: &[u8]) -> Result<(), Failed>
        ensures later { faults_of self.old ≤ faults_of self.new }
        ensures cause { OnErr result (Rose (faults_of self.old) (faults_of self.new)) }
        ensures ok { OnOk result (Appends (Some (text_of self.old)) (Some (text_of self.new)) bytes.now) }
        ensures err { OnErr result
            (AppendsFront (Some (text_of self.old)) (Some (text_of self.new)) bytes.now) }
        ensures front { text_of self.new
            ≡ text_of self.old ++ take (next_front self.old bytes.now).len bytes.now }
        ensures fails { is_ok result ≡ not (next_front self.old bytes.now).fails }
        ensures count { faults_of self.new
            ≡ counted_if (next_front self.old bytes.now).fails (faults_of self.old) }
        ensures call { call_of self.new ≡ counted (call_of self.old) }
        ensures room_stays { room_of self.new ≡ room_of self.old }
        ensures fails_stay { fails_of self.new ≡ fails_of self.old }
    {
        let planned = planned_front(self.fails.as_slice(), self.call);
        self.call = self.call.saturating_add(1);
        let front = front_of(planned, self.room - self.text.len(), bytes.len());
        append_reserved(&mut self.text, bytes.split_at(front.len).0);
        if front.fails {
            return Err(fault(&mut self.faults));
        }
        Ok(())
    }
}

/// Appends bytes for which room was reserved.
fn append_reserved(text: &mut Vec<u8>, bytes: &[u8])
    requires { vec_len text.old + length bytes.now ≤ vec_capacity text.old }
    ensures items { text.new.items ≡ text.old.items ++ bytes.now }
    ensures len { vec_len text.new ≡ vec_len text.old + length bytes.now }
    ensures capacity { vec_capacity text.old ≤ vec_capacity text.new }
{
    text.extend_from_slice(bytes).unwrap();
}
