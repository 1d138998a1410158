//! `StdSink` over a stream that takes little, nothing or fails.

use crate::{Failed, Sink, StdSink};
use std::alloc::Global;
use std::io::{Error, ErrorKind, Result as IoResult, Write};
use std::test::Fail;

/// A stream that holds back what it took until it is flushed.
#[derive(Drop)]
struct FakeStream {
    /// How many bytes a call takes at most.
    most: usize,
    /// The call of `write` of this number, counted from 1, and all later ones take nothing.
    stops_at: u8,
    /// The call of `write` of this number fails.
    fails_at: u8,
    /// The call of `flush` of this number fails.
    flush_fails_at: u8,
    writes: u8,
    flushes: u8,
    held: Vec<u8>,
    handed_on: Vec<u8>,
}

impl Write for FakeStream {
    fn write(&mut self, buf: &[u8]) -> IoResult<usize> {
        self.writes = self.writes.saturating_add(1);
        if self.writes == self.fails_at {
            return Err(Error::from(ErrorKind::BrokenPipe));
        }
        if self.writes >= self.stops_at {
            return Ok(0);
        }
        let count = buf.len().min(self.most);
        self.held.extend_from_slice(&buf[..count])?;
        Ok(count)
    }

    fn flush(&mut self) -> IoResult<()> {
        self.flushes = self.flushes.saturating_add(1);
        if self.flushes == self.flush_fails_at {
            return Err(Error::from(ErrorKind::BrokenPipe));
        }
        self.handed_on.extend_from_slice(&self.held)?;
        self.held.clear();
        Ok(())
    }
}

/// A sink over a stream of which no call fails.
fn sink(alloc: Global, most: usize) -> StdSink<FakeStream> {
    let stream = FakeStream {
        most,
        stops_at: u8::MAX,
        fails_at: 0,
        flush_fails_at: 0,
        writes: 0,
        flushes: 0,
        held: Vec::new(alloc),
        handed_on: Vec::new(alloc),
    };
    StdSink { stream, faults: 0 }
}

#[test]
fn short_writes_are_gone_on_with_and_flushed(rt: HostRuntime) -> Result<(), Fail> {
    for (most, writes) in [(1, 7), (2, 4), (3, 3), (9, 2)] {
        let mut sink = sink(rt.alloc(), most);
        sink.write_all(b"abcde")?;
        assert_eq!(rt; sink.stream.handed_on.as_slice(), b"abcde".as_slice());
        sink.write_all(b"fg")?;
        assert_eq!(rt; sink.stream.handed_on.as_slice(), b"abcdefg".as_slice());
        assert_eq!(rt; (sink.stream.writes, sink.stream.flushes), (writes, 2));
        assert_eq!(rt; sink.faults, 0);
    }
    Ok(())
}

#[test]
fn a_write_of_nothing_fails(rt: HostRuntime) -> Result<(), Fail> {
    let mut sink = sink(rt.alloc(), 2);
    sink.stream.stops_at = 2;
    assert_eq!(rt; sink.write_all(b"abc"), Err(Failed));
    assert_eq!(rt; sink.stream.held.as_slice(), b"ab".as_slice());
    assert_eq!(rt; sink.faults, 1);
    Ok(())
}

#[test]
fn a_write_that_fails_ends_the_call(rt: HostRuntime) -> Result<(), Fail> {
    let mut sink = sink(rt.alloc(), 2);
    sink.stream.fails_at = 2;
    assert_eq!(rt; sink.write_all(b"abc"), Err(Failed));
    assert_eq!(rt; (sink.stream.writes, sink.faults), (2, 1));
    sink.write_all(b"d")?;
    assert_eq!(rt; sink.stream.handed_on.as_slice(), b"abd".as_slice());
    Ok(())
}

#[test]
fn a_flush_that_fails_is_told(rt: HostRuntime) -> Result<(), Fail> {
    let mut sink = sink(rt.alloc(), 9);
    sink.stream.flush_fails_at = 1;
    assert_eq!(rt; sink.write_all(b"abc"), Err(Failed));
    assert_eq!(rt; sink.stream.held.as_slice(), b"abc".as_slice());
    assert_eq!(rt; sink.faults, 1);
    Ok(())
}
