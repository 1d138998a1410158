//! Sources and sinks in memory, and over the system's files and streams.
use crate::{Failed, FileInputs, Inputs, MemoryInputs, MemorySink, Sink, StdSink};
use std::alloc::{AllocError, Global};
use std::test::Fail;

fn named(alloc: Global, name: &str, bytes: &[u8]) -> Result<(String, Vec<u8>), AllocError> {
    Ok((String::from_str(alloc, name)?, bytes.to_vec(alloc)?))
}

#[test]
fn a_failed_read_gives_its_bytes_to_the_next(rt: HostRuntime) -> Result<(), Fail> {
    let files = vec![in rt.alloc(); named(rt.alloc(), "a", b"xy")?]?;
    let mut inputs = MemoryInputs::new(files, 1, vec![in rt.alloc(); 3]?);
    let mut buf = [0u8; 4];
    inputs.begin("a")?;
    assert_eq!(rt; inputs.read(&mut buf), Ok(1));
    assert_eq!(rt; buf[0], b'x');
    assert_eq!(rt; inputs.read(&mut buf), Err(Failed));
    assert_eq!(rt; inputs.read(&mut buf), Ok(1));
    assert_eq!(rt; buf[0], b'y');
    assert_eq!(rt; inputs.read(&mut buf), Ok(0));
    Ok(())
}

#[test]
fn a_missing_name_fails_and_the_first_file_of_a_name_counts(rt: HostRuntime) -> Result<(), Fail> {
    let first = named(rt.alloc(), "a", b"x")?;
    let second = named(rt.alloc(), "a", b"y")?;
    let files = vec![in rt.alloc(); first, second]?;
    let mut inputs = MemoryInputs::new(files, 8, vec![in rt.alloc(); 2]?);
    let mut buf = [0u8; 4];
    assert_eq!(rt; inputs.begin("b"), Err(Failed));
    assert_eq!(rt; inputs.begin("a"), Err(Failed));
    inputs.begin("a")?;
    assert_eq!(rt; inputs.read(&mut buf), Ok(1));
    assert_eq!(rt; buf[0], b'x');
    Ok(())
}

#[test]
fn a_planned_failure_appends_its_front(rt: HostRuntime) -> Result<(), Fail> {
    let fails = vec![in rt.alloc(); (2, 0), (3, 1)]?;
    let mut sink = MemorySink::new(rt.alloc(), 1_048_576, fails)?;
    sink.write_all(b"ab")?;
    assert_eq!(rt; sink.write_all(b"cd"), Err(Failed));
    assert_eq!(rt; sink.write_all(b"ef"), Err(Failed));
    sink.write_all(b"gh")?;
    assert_eq!(rt; sink.text(), b"abegh".as_slice());
    Ok(())
}

#[test]
fn a_piece_is_cut_where_the_room_ends(rt: HostRuntime) -> Result<(), Fail> {
    let mut sink = MemorySink::new(rt.alloc(), 3, Vec::new(rt.alloc()))?;
    sink.write_all(b"ab")?;
    assert_eq!(rt; sink.write_all(b"cd"), Err(Failed));
    assert_eq!(rt; sink.write_all(b"e"), Err(Failed));
    assert_eq!(rt; sink.text(), b"abc".as_slice());
    Ok(())
}

#[test]
fn a_directory_cannot_be_read_as_a_file(rt: HostRuntime) {
    let mut inputs = FileInputs::new(&rt);
    let mut buf = [0u8; 4];
    assert!(rt; inputs.begin("no such file").is_err());
    let read = match inputs.begin(".") {
        Ok(()) => inputs.read(&mut buf),
        Err(failed) => Err(failed),
    };
    assert_eq!(rt; read, Err(Failed));
}

#[test]
fn each_name_is_begun_for_itself(rt: HostRuntime) -> Result<(), Fail> {
    let mut inputs = FileInputs::new(&rt);
    let mut buf = [1u8; 4];
    inputs.begin("/dev/null")?;
    assert_eq!(rt; inputs.read(&mut buf), Ok(0));
    inputs.begin("/dev/zero")?;
    assert_eq!(rt; inputs.read(&mut buf), Ok(4));
    assert_eq!(rt; buf[0], 0);
    inputs.begin("/dev/null")?;
    assert_eq!(rt; inputs.read(&mut buf), Ok(0));
    Ok(())
}

#[test]
fn the_standard_streams_take_a_piece(rt: HostRuntime) -> Result<(), Fail> {
    StdSink::output(rt.stdout()).write_all(b"")?;
    StdSink::errors(rt.stderr()).write_all(b"\n")?;
    Ok(())
}
