//! Random graph files, read in batches of many sizes and line after line: both ways give one answer.

ghost use Rattle.std.specs.Prelude.{◌≤◌, ◌<◌};

use pg_base::{Edge, EdgeList};
use pg_metis::{GraphFault, read_graph, read_graph_in_batches, read_graph_on_threads};
use pg_outside::{Inputs, MemoryInputs};
use std::alloc::Global;
use std::process::Abort;
use std::test::Fail;
use std::thread::Threads;

type Answer = Result<EdgeList, GraphFault>;

/// What may stand in place of a line.
const TEXTS: [&str; 20] = [
    "% a comment",
    "x",
    "2 x",
    "0 1",
    "99 1",
    "1 1",
    "2 0",
    "2 1 2 1",
    "3",
    "1 7 2 7 3 7",
    "",
    "1 5\n2 5",
    "4294967296 1",
    "3 2",
    "5 8388609 1",
    "1048577 1",
    "3 2 2",
    "% c\n\n3 1",
    "4 4 1 x",
    "1 1 1 1 1",
];

/// How a line is changed.
#[derive(Clone, Copy)]
enum Change {
    /// This text stands in its place.
    Text(&'static str),
    /// It gives its edges other weights.
    Weights,
    /// It names other neighbours.
    Names,
}

/// A change of the line at a place: 0 is the header's, v that of vertex v, and one more that of what follows them.
#[derive(Clone, Copy)]
struct ChangeAt {
    place: u32,
    change: Change,
}

/// A file for each kind of fault but `TooLong`. Source: docs/FORMAT.md, the faults of a graph file.
const FAULTS: [&str; 15] = [
    "%a\n%b\n",
    "1\n\n",
    "2 1\n2\nx\n",
    "1048577 0\n",
    "1 0 2\n\n",
    "2 1 1\n2 5\n1\n",
    "2 1\n3\n1\n",
    "1 1\n1\n",
    "2 1\n2 2\n1\n",
    "2 1 1\n2 0\n1 0\n",
    "3 1\n2\n1\n",
    "2 1\n2\n1\n3\n",
    "2 2\n2\n1\n",
    "3 1\n2\n3\n\n",
    "2 1 1\n2 5\n1 6\n",
];

/// Draws a number by the linear congruential generator of Knuth's MMIX (The Art of Computer Programming, volume 2,
/// section 3.3.4).
fn draw(state: &mut u64, below: u32) -> u32
    requires { 1 ≤ below }
    ensures { result < below }
{
    *state = state
        .wrapping_mul(6_364_136_223_846_793_005)
        .wrapping_add(1_442_695_040_888_963_407);
    (*state >> 33) as u32 % below
}

/// About every third pair of these vertices is joined.
fn random_edges(alloc: Global, n: u32, state: &mut u64) -> Result<Vec<Edge>, Fail>
    requires { n < 100 }
{
    let mut edges = Vec::new(alloc);
    for v in 1..n + 1 {
        for u in 1..v {
            let w = draw(state, 15);
            if w > 9 {
                edges.push(Edge { u, v, w })?;
            }
        }
    }
    Ok(edges)
}

/// A change of one of the lines of a file with `n` vertices.
fn random_change(n: u32, state: &mut u64) -> ChangeAt
    requires { n < 100 }
{
    let place = draw(state, n + 2);
    let change = match draw(state, 4) {
        0 => Change::Weights,
        1 => Change::Names,
        _ => Change::Text(TEXTS[draw(state, 20) as usize]),
    };
    ChangeAt { place, change }
}

/// The neighbours of a vertex, with the weights of its edges. These bits are turned over in both.
fn line_of(
    alloc: Global,
    edges: &[Edge],
    vertex: u32,
    in_names: u32,
    in_weights: u32,
) -> Result<String, Fail> {
    let mut line = String::new(alloc);
    for edge in edges {
        let weight = edge.w ^ in_weights;
        if edge.u == vertex {
            line.push_str(format!(in alloc; "{} {weight} ", edge.v ^ in_names)?.as_str())?;
        } else if edge.v == vertex {
            line.push_str(format!(in alloc; "{} {weight} ", edge.u ^ in_names)?.as_str())?;
        }
    }
    Ok(line)
}

/// The line at a place of the file, as the first change for it says.
fn line_at(
    alloc: Global,
    n: u32,
    edges: &[Edge],
    changes: &[ChangeAt],
    place: u32,
) -> Result<String, Fail> {
    for at in changes {
        if at.place == place {
            return match at.change {
                Change::Text(text) => Ok(String::from_str(alloc, text)?),
                Change::Weights => line_of(alloc, edges, place, 0, 1),
                Change::Names => line_of(alloc, edges, place, 1, 0),
            };
        }
    }
    if place == 0 {
        return Ok(format!(in alloc; "{n} {} 1", edges.len())?);
    }
    line_of(alloc, edges, place, 0, 0)
}

/// The file of a random graph of at most 11 vertices, in which `changes` lines are changed.
fn random_file(alloc: Global, changes: u32, state: &mut u64) -> Result<String, Fail> {
    let n = draw(state, 12);
    let edges = random_edges(alloc, n, state)?;
    let mut changed = Vec::new(alloc);
    for _ in 0..changes {
        changed.push(random_change(n, state))?;
    }
    let mut file = String::new(alloc);
    for place in 0..n + 2 {
        file.push_str(line_at(alloc, n, &edges, &changed, place)?.as_str())?;
        file.push_str("\n")?;
    }
    Ok(file)
}

/// One file, by the name F.
fn files(alloc: Global, file: &str) -> Result<Vec<(String, Vec<u8>)>, Fail> {
    let mut files = Vec::new(alloc);
    files.push((
        String::from_str(alloc, "F")?,
        Vec::from_slice(alloc, file.as_bytes())?,
    ))?;
    Ok(files)
}

/// Reads a file that comes in pieces of so many bytes, line after line. The call of this number fails.
fn read(alloc: Global, file: &str, piece: usize, fails: u64) -> Result<Answer, Fail>
    requires { 1 ≤ piece }
{
    let mut inputs = MemoryInputs::new(files(alloc, file)?, piece, vec![in alloc; fails]?);
    inputs.begin("F")?;
    Ok(read_graph(alloc, &mut inputs))
}

/// The same in batches of about `room` bytes.
fn read_batches(
    rt: &(impl Threads + Sync),
    alloc: Global,
    file: &str,
    piece: usize,
    fails: u64,
    threads: u32,
    room: usize,
) -> Result<Answer, Fail>
    requires piece { 1 ≤ piece }
    requires threads { 1 ≤ threads }
    requires room { 1 ≤ room }
{
    let mut inputs = MemoryInputs::new(files(alloc, file)?, piece, vec![in alloc; fails]?);
    inputs.begin("F")?;
    Ok(read_graph_in_batches(rt, alloc, threads, room, &mut inputs))
}

/// Asserts that both answers are of one graph, or one fault.
fn assert_same(rt: &impl Abort, file: &str, answer: &Answer, expected: &Answer) {
    match (answer, expected) {
        (Ok(answer), Ok(expected)) => {
            assert_eq!(rt; answer.n(), expected.n(), "{file}");
            assert_eq!(rt; answer.edges(), expected.edges(), "{file}");
        }
        (Err(answer), Err(expected)) => assert_eq!(rt; answer, expected, "{file}"),
        _ => panic!(rt; "a graph and a fault: {file}"),
    }
}

/// Asserts that all ways to read the file give one answer, where the call of this number fails.
fn assert_one_answer(
    rt: &(impl Abort + Threads + Sync),
    alloc: Global,
    file: &str,
    fails: u64,
) -> Result<(), Fail> {
    for piece in [1, 3, 64] {
        let expected = read(alloc, file, piece, fails)?;
        for room in [1, 7, 64, 100_000] {
            for threads in [1, 4] {
                let answer = read_batches(rt, alloc, file, piece, fails, threads, room)?;
                assert_same(rt, file, &answer, &expected);
            }
        }
    }
    Ok(())
}

#[test]
fn batches_give_the_graph_or_the_first_fault(rt: HostRuntime) -> Result<(), Fail> {
    let mut state = 23u64;
    for round in 0..40u32 {
        let file = random_file(rt.alloc(), round % 3, &mut state)?;
        assert_one_answer(&rt, rt.alloc(), file.as_str(), 0)?;
    }
    Ok(())
}

#[test]
fn batches_give_each_kind_of_fault(rt: HostRuntime) -> Result<(), Fail> {
    for file in &FAULTS {
        assert_one_answer(&rt, rt.alloc(), file, 0)?;
    }
    Ok(())
}

#[test]
fn a_read_that_fails_hides_no_fault_before_it(rt: HostRuntime) -> Result<(), Fail> {
    let mut state = 5u64;
    for round in 0..20u32 {
        let file = random_file(rt.alloc(), round % 2, &mut state)?;
        let fails = 2 + u64::from(draw(&mut state, 40));
        assert_one_answer(&rt, rt.alloc(), file.as_str(), fails)?;
    }
    Ok(())
}

#[test]
fn threads_read_a_mesh(rt: HostRuntime) -> Result<(), Fail> {
    let mesh = "7 11\n5 3 2\n1 3 4\n5 4 2 1\n2 3 6 7\n1 3 6\n5 4 7\n6 4\n";
    let expected = read(rt.alloc(), mesh, 3, 0)?;
    for threads in 1..5 {
        let files = files(rt.alloc(), mesh)?;
        let mut inputs = MemoryInputs::new(files, 3, Vec::new(rt.alloc()));
        inputs.begin("F")?;
        let answer = read_graph_on_threads(&rt, rt.alloc(), threads, &mut inputs);
        assert_same(&rt, mesh, &answer, &expected);
    }
    Ok(())
}
