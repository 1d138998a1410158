//! Standard output and standard error as sinks.
ghost use Rattle.std.specs.Prelude.{◌≡◌, ◌≤◌, is_ok, not, OnOk, OnErr};
ghost use Rattle.std.specs.Io.KnownBytes.{Appends, Keeps};
ghost use Rattle.pg_outside.specs.Counts.{counted_if};
ghost use Rattle.pg_outside.specs.Faults.{Rose};
ghost use Rattle.pg_outside.specs.Written.{AppendsFront};

use crate::faults::fault;
use crate::{Failed, Sink};
use std::io::{Stderr, Stdout, Write};

/// A stream of the system. Contracts see its text only where the stream shows it, which standard output and standard
/// error don't. Each piece is handed on at once, by one system call where the system takes it whole.
#[derive(Drop)]
pub struct StdSink<W> {
    pub(crate) stream: W,
    pub(crate) faults: u64,
}

impl StdSink<Stdout> {
    ghost use Rattle.pg_outside.specs.StdSink.{faults_of, stream_of};

    /// Standard output.
    pub fn output(stream: Stdout) -> StdSink<Stdout>
        ensures stream { stream_of result ≡ stream }
        ensures faults { faults_of result ≡ 0 }
    {
        StdSink { stream, faults: 0 }
    }
}

impl StdSink<Stderr> {
    ghost use Rattle.pg_outside.specs.StdSink.{faults_of, stream_of};

    /// Standard error.
    pub fn errors(stream: Stderr) -> StdSink<Stderr>
        ensures stream { stream_of result ≡ stream }
        ensures faults { faults_of result ≡ 0 }
    {
        StdSink { stream, faults: 0 }
    }
}

impl<W: Write> Sink for StdSink<W> {
    ghost use Rattle.pg_outside.specs.StdSink.{faults_of, stream_of};

    ghost faults = { λ sink. sink.faults };

    ghost text = { λ sink. W.contents sink.stream };

    /// Writes the whole piece and flushes it. An error of the system, or a write that takes nothing of a
    /// piece that is not empty, ends the call and counts one fault.
    fn write_all(&mut self, bytes: &[u8]) -> Result<(), Failed>
        ensures later { faults_of self.old ≤ faults_of self.new }
        ensures cause { OnErr result (Rose (faults_of self.old) (faults_of self.new)) }
        ensures ok { OnOk result
            (Appends (W.contents (stream_of self.old)) (W.contents (stream_of self.new)) bytes.now) }
        ensures err { OnErr result
            (AppendsFront (W.contents (stream_of self.old)) (W.contents (stream_of self.new)) bytes.now) }
        ensures count { faults_of self.new ≡ counted_if (not (is_ok result)) (faults_of self.old) }
    {
        match write_and_flush(&mut self.stream, bytes) {
            Ok(()) => Ok(()),
            Err(_) => Err(fault(&mut self.faults)),
        }
    }
}

/// Writes all of these bytes, or a front of them where the stream fails.
fn write_whole<W: Write>(stream: &mut W, bytes: &[u8]) -> Result<(), Failed>
    ensures ok { OnOk result (Appends (W.contents stream.old) (W.contents stream.new) bytes.now) }
    ensures err { OnErr result
        (AppendsFront (W.contents stream.old) (W.contents stream.new) bytes.now) }
{
    let mut rest = bytes;
    while !rest.is_empty() {
        match stream.write(rest) {
            Ok(0) => return Err(Failed),
            Ok(count) => rest = rest.split_at(count).1,
            Err(_) => return Err(Failed),
        }
    }
    Ok(())
}

/// Hands on what the stream holds back.
fn flush<W: Write>(stream: &mut W) -> Result<(), Failed>
    ensures { Keeps (W.contents stream.old) (W.contents stream.new) }
{
    stream.flush().map_err(|_| Failed)
}

fn write_and_flush<W: Write>(stream: &mut W, bytes: &[u8]) -> Result<(), Failed>
    ensures ok { OnOk result (Appends (W.contents stream.old) (W.contents stream.new) bytes.now) }
    ensures err { OnErr result
        (AppendsFront (W.contents stream.old) (W.contents stream.new) bytes.now) }
{
    write_whole(stream, bytes)?;
    flush(stream)
}
