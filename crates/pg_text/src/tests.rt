//! Lines of files in memory, which come in pieces, and the words and numbers of a line.
ghost use Rattle.std.specs.Prelude.{◌≡◌, ◌≤◌, ◌<◌, ◌-◌, ◌^◌, true, IfOk};
ghost use Rattle.pg_outside.specs.MemoryInputs.{is_begun};

use crate::{Line, Lines, TextFault, number, words};
use pg_outside::{Inputs, MemoryInputs};
use std::alloc::Global;
use std::test::Fail;

/// Begins a file of these bytes, which comes in pieces. The calls of these numbers fail, the first read
/// having the number 2.
fn begun(
    alloc: Global,
    bytes: &[u8],
    piece: usize,
    fails: &[u64],
) -> Result<MemoryInputs, TextFault>
    requires { 1 ≤ piece }
    ensures { IfOk result (λ inputs. is_begun inputs ≡ true) }
{
    let file = (String::from_str(alloc, "a")?, bytes.to_vec(alloc)?);
    let files = vec![in alloc; file]?;
    let mut inputs = MemoryInputs::new(files, piece, fails.to_vec(alloc)?);
    inputs.begin("a")?;
    Ok(inputs)
}

/// The lines of a begun file, with a bar after each.
fn barred(alloc: Global, inputs: &mut MemoryInputs, limit: u64) -> Result<Vec<u8>, TextFault>
    requires begun { is_begun inputs.old ≡ true }
    requires few { limit < 2 ^ 64 - 1 }
{
    let mut lines = Lines::new(inputs, limit);
    let mut all = Vec::new(alloc);
    while let Some(line) = lines.next(alloc)? {
        all.extend_from_slice(&line.bytes)?;
        all.push(b'|')?;
    }
    Ok(all)
}

#[test]
fn a_line_with_a_byte_past_the_limit_is_too_long(rt: HostRuntime) -> Result<(), Fail> {
    let mut inputs = begun(rt.alloc(), b"ab\ncd\n", 8, &[])?;
    let mut lines = Lines::new(&mut inputs, 4);
    let bytes = b"ab".to_vec(rt.alloc())?;
    assert_eq!(rt; lines.next(rt.alloc())?, Some(Line { number: 1, bytes }));
    assert_eq!(rt; lines.next(rt.alloc()), Err(TextFault::TooLong { line: 2 }));
    Ok(())
}

#[test]
fn pieces_of_any_size_give_the_same_lines(rt: HostRuntime) -> Result<(), Fail> {
    for piece in 1..9 {
        let mut inputs = begun(rt.alloc(), b"ab\n\n%c\r\nd", piece, &[])?;
        let lines = barred(rt.alloc(), &mut inputs, 9)?;
        assert_eq!(rt; lines.as_slice(), b"ab||%c\r|d|".as_slice(), "at {piece}");
    }
    Ok(())
}

#[test]
fn a_line_may_be_longer_than_a_piece(rt: HostRuntime) -> Result<(), Fail> {
    let mut bytes = vec![in rt.alloc(); b'x'; 200_000]?;
    bytes.extend_from_slice(b"\ny\n")?;
    let mut inputs = begun(rt.alloc(), &bytes, 1_000_000, &[])?;
    let lines = barred(rt.alloc(), &mut inputs, 200_003)?;
    assert_eq!(rt; lines.len(), 200_003);
    assert!(rt; lines.ends_with(b"xx|y|"));
    Ok(())
}

#[test]
fn an_empty_file_has_no_line(rt: HostRuntime) -> Result<(), Fail> {
    let mut inputs = begun(rt.alloc(), b"", 1, &[])?;
    assert_eq!(rt; barred(rt.alloc(), &mut inputs, 0)?.len(), 0);
    Ok(())
}

#[test]
fn a_read_that_fails_in_a_line_is_no_end(rt: HostRuntime) -> Result<(), Fail> {
    let mut inputs = begun(rt.alloc(), b"a\nbc\n", 1, &[5])?;
    assert_eq!(rt; barred(rt.alloc(), &mut inputs, 5), Err(TextFault::Failed));
    Ok(())
}

#[test]
fn the_input_is_given_back_after_an_error(rt: HostRuntime) -> Result<(), Fail> {
    let mut inputs = begun(rt.alloc(), b"ab\ncd\n", 3, &[3])?;
    let mut lines = Lines::new(&mut inputs, 6);
    assert!(rt; lines.next(rt.alloc())?.is_some());
    assert_eq!(rt; lines.next(rt.alloc()), Err(TextFault::Failed));
    let mut buf = [0u8; 9];
    assert_eq!(rt; lines.into_inputs().read(&mut buf), Ok(3));
    assert_eq!(rt; buf[0], b'c');
    Ok(())
}

#[test]
fn the_input_is_given_back(rt: HostRuntime) -> Result<(), Fail> {
    let mut inputs = begun(rt.alloc(), b"ab", 1, &[])?;
    let mut buf = [0u8; 2];
    assert_eq!(rt;
        Lines::new(&mut inputs, 2).into_inputs().read(&mut buf),
        Ok(1)
    );
    Ok(())
}

#[test]
fn spaces_tabs_and_carriage_returns_divide_words(rt: HostRuntime) {
    let mut words = words(b" 12\t 7 \r");
    assert_eq!(rt; words.next(), Some(b"12".as_slice()));
    assert_eq!(rt; words.next(), Some(b"7".as_slice()));
    assert_eq!(rt; words.next(), None);
    assert_eq!(rt; words.next(), None);
}

#[test]
fn a_number_has_one_to_ten_digits_worth_no_more_than_a_u32_holds(rt: HostRuntime) {
    for (word, value) in [
        ("", None),
        ("0", Some(0)),
        ("0000000002", Some(2)),
        ("00000000002", None),
        ("4294967295", Some(4_294_967_295)),
        ("4294967296", None),
        ("9999999999", None),
        ("+1", None),
        ("12x", None),
    ] {
        assert_eq!(rt; number(word.as_bytes()), value, "at {word}");
    }
}
