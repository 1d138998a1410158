//! Grids and their summaries.

use crate::running::{Seen, run_over, words_of};
use pg_base::{OpenGate, Status};
use std::alloc::AllocGlobal;
use std::sync::Wait;
use std::test::Fail;
use std::thread::Threads;

/// The summary of the grid of two columns and two rows by the seed 7, whose edges 1 2, 1 3, 2 4 and 3 4 weigh 2,446, 1,226,
/// 1,359 and 2,835.
const SUMMARY: &str =
    "vertices 4\nedges 4\nhops 4 2 4\nweights 4 3805 7477\ncomponents 1\nforest 3 5031\nclashes 0\n";

/// Runs the words of a line with nothing to read, and with these writes failing.
fn make<W: Threads + Wait + Sync + AllocGlobal>(
    rt: &W,
    line: &str,
    failing_writes: Vec<(u64, usize)>,
) -> Result<Seen, Fail> {
    let alloc = rt.alloc();
    let words = words_of(alloc, line)?;
    run_over(rt, &words, &[], Vec::new(alloc), failing_writes, &OpenGate)
}

#[test]
fn a_grid_is_summed_up_the_same_by_any_number_of_ranks(rt: HostRuntime) -> Result<(), Fail> {
    let alloc = rt.alloc();
    for line in [
        "grid --width 2 --height 2 --seed 7 ",
        "grid --width 2 --height 2 --seed 7 --ranks 1 --capacity 1 ",
        "grid --width 2 --height 2 --seed 7 --ranks 2 --capacity 64 ",
        "grid --width 2 --height 2 --seed 7 --ranks 3 --capacity 2 ",
        "grid --width 2 --height 2 --seed 7 --ranks 4 --capacity 1 ",
        "grid --width 2 --height 2 --seed 7 --ranks 7 --threads 2 --delta 1 ",
        "grid --delta 4294967295 --seed=2147483655 --height=2 --width=2 --threads 3 ",
    ] {
        let seen = make(&rt, line, Vec::new(alloc))?;
        assert_eq!(rt; seen.status, Status::Ok);
        assert_eq!(rt; seen.out.text(), SUMMARY.as_bytes(), "{line}");
        assert_eq!(rt; seen.errs.text(), b"".as_slice());
    }
    Ok(())
}

#[test]
fn a_larger_grid_is_summed_up_the_same_on_one_rank_and_on_four(
    rt: HostRuntime,
) -> Result<(), Fail> {
    let alloc = rt.alloc();
    let one = make(&rt, "grid --width 9 --height 7 --seed 3 ", Vec::new(alloc))?;
    let four = make(
        &rt,
        "grid --width 9 --height 7 --seed 3 --ranks 4 --capacity 2 ",
        Vec::new(alloc),
    )?;
    assert_eq!(rt; one.status, Status::Ok);
    assert_eq!(rt; one.out.text(), four.out.text());
    Ok(())
}

#[test]
fn a_grid_of_one_vertex_has_no_edges(rt: HostRuntime) -> Result<(), Fail> {
    let alloc = rt.alloc();
    let seen = make(
        &rt,
        "grid --width 1 --height 1 --seed 0 --ranks 3 ",
        Vec::new(alloc),
    )?;
    assert_eq!(rt; seen.status, Status::Ok);
    let text =
        "vertices 1\nedges 0\nhops 1 0 0\nweights 1 0 0\ncomponents 1\nforest 0 0\nclashes 0\n";
    assert_eq!(rt; seen.out.text(), text.as_bytes());
    Ok(())
}

#[test]
fn a_failed_write_leaves_a_front_of_a_summary(rt: HostRuntime) -> Result<(), Fail> {
    let alloc = rt.alloc();
    let line = "grid --width 2 --height 2 --seed 7 --ranks 2 ";
    for (call, bytes, text) in [
        (1, 0, ""),
        (2, 5, "vertices 4\nedges"),
        (3, 0, "vertices 4\nedges 4\n"),
    ] {
        let seen = make(&rt, line, vec![in alloc; (call, bytes)]?)?;
        assert_eq!(rt; seen.status, Status::WriteFault);
        assert_eq!(rt; seen.out.text(), text.as_bytes());
        assert_eq!(rt; seen.errs.text(), b"cannot write\n".as_slice());
    }
    Ok(())
}
