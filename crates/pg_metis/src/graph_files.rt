//! From a graph file to its graph.

ghost use Rattle.std.specs.Prelude.{◌≡◌, ◌≤◌, [], List, Some, IsTrue, IfOk, OnOk, IfSome, length};
ghost use Rattle.pg_outside.specs.Faults.{Rose};
ghost use Rattle.pg_metis.specs.Answers.{IsNotRefused, IsRefusedAs, OnFailed, OnRefused};
ghost use Rattle.pg_base.specs.Graph.{Graph};
ghost use Rattle.pg_metis.specs.Content.{NumberedLine};
ghost use Rattle.pg_metis.specs.Fault.{Fault, fault_of, pairs_fault};
ghost use Rattle.pg_metis.specs.File.{FileOf};
ghost use Rattle.pg_metis.specs.Headers.{header_in};
ghost use Rattle.pg_metis.specs.Pieces.{ArePieceRowsOf};
ghost use Rattle.pg_metis.specs.Reading.{AreLinesOf, AreRowsOf};
ghost use Rattle.pg_metis.specs.Refusals.{LeavesWithin, told_at};

use crate::batch_files::{PieceFile, read_file_in_batches};
use crate::pairing::{PairFault, edges_of};
use crate::ranges::edges_of_on_threads;
use crate::reading::{FileLines, read_file};
use crate::{GraphFault, Kind};
use pg_base::EdgeList;
use pg_outside::Inputs;
use std::alloc::Global;
use std::thread::Threads;

/// About how many bytes of lines are looked at side by side.
const BATCH_BYTES: usize = 16 << 20;

/// Reads the bytes that are left of the name begun last as a graph file, and answers its graph. The
/// contents are these bytes.
///
/// `Refused` comes exactly where the contents have that first fault and no read failed before it was found.
/// `Failed` comes only where the count of faults rose. After `Ok` the input was read to its end; after an
/// `Err` it stands anywhere. Source: METIS 5.1 manual, section 4.1.1.
pub fn read_graph<I: Inputs>(alloc: Global, inputs: &mut I) -> Result<EdgeList, GraphFault>
    requires { IsTrue (I.begun inputs.old) }
    ensures ok { IfOk result (λ g. IfSome (I.left inputs.old) (λ text. FileOf text g)) }
    ensures end { OnOk result (IfSome (I.left inputs.old) (λ _. I.left inputs.new ≡ Some [])) }
    ensures refused { OnRefused result (λ fault. IfSome (I.left inputs.old) (λ text. fault_of text ≡ Some fault)) }
    ensures malformed { IfSome (I.left inputs.old) (λ text. (fault : Fault) → fault_of text ≡ Some fault → IsRefusedAs result fault) }
    ensures well_formed { IfSome (I.left inputs.old) (λ text. (g : Graph) → FileOf text g → IsNotRefused result) }
    ensures failed { OnFailed result (Rose (I.faults inputs.old) (I.faults inputs.new)) }
    ensures later { I.faults inputs.old ≤ I.faults inputs.new }
    ensures files { I.files inputs.new ≡ I.files inputs.old }
{
    let file = read_file(alloc, inputs)?;
    graph_of(alloc, file)
}

/// The graph whose edges the lines of the vertices name.
fn graph_of(alloc: Global, file: FileLines) -> Result<EdgeList, GraphFault>
    requires read { (lines : List NumberedLine) × AreRowsOf (header_in file.header) file.header.n file.rows lines }
    ensures ok { IfOk result (λ g. (lines : List NumberedLine) → AreRowsOf (header_in file.header) file.header.n file.rows lines → AreLinesOf (header_in file.header) lines g) }
    ensures refused { OnRefused result (λ fault. (lines : List NumberedLine) → AreRowsOf (header_in file.header) file.header.n file.rows lines → pairs_fault (header_in file.header) file.header_line lines ≡ Some fault) }
    ensures failed { OnFailed result ⊥ }
{
    let FileLines {
        header,
        header_line,
        rows,
    } = file;
    let Some(arcs) = rows.arcs.into_full() else {
        return Err(GraphFault::Refused {
            line: header_line,
            kind: Kind::WrongCount,
        });
    };
    match edges_of(alloc, header.n, arcs) {
        Ok(edges) => Ok(EdgeList::new(header.n, edges)),
        Err(fault) => Err(refusal(fault, &rows.numbers)),
    }
}

/// The refusal of arcs that aren't paired. It names the line of their vertex, by the numbers of all lines.
fn refusal(fault: PairFault, numbers: &[u64]) -> GraphFault
    requires { LeavesWithin (length numbers.now) fault }
    ensures { result ≡ told_at numbers.now fault }
{
    match fault {
        PairFault::NotPaired { vertex, kind } => GraphFault::Refused {
            line: numbers[vertex as usize - 1],
            kind,
        },
        PairFault::OutOfMemory => GraphFault::OutOfMemory,
    }
}

/// Reads the bytes that are left of the name begun last as a graph file, and answers its graph, by at most
/// `threads` threads, of which the caller's is one. Where there are two or more, the lines of vertices are looked
/// at in batches of about 16 MiB, the lines of a batch side by side.
///
/// The answer is that of `read_graph`, whatever the number of threads: `Refused` comes exactly where the contents
/// have that first fault and no read failed before it was found. `Failed` comes only where the count of faults
/// rose. After `Ok` the input was read to its end; after an `Err` it stands anywhere. More memory is taken than by
/// `read_graph`, so `OutOfMemory` can come sooner. Source: METIS 5.1 manual, section 4.1.1.
pub fn read_graph_on_threads<R: Threads + Sync, I: Inputs>(
    token: &R,
    alloc: Global,
    threads: u32,
    inputs: &mut I,
) -> Result<EdgeList, GraphFault>
    requires threads { 1 ≤ threads }
    requires begun { IsTrue (I.begun inputs.old) }
    ensures ok { IfOk result (λ g. IfSome (I.left inputs.old) (λ text. FileOf text g)) }
    ensures end { OnOk result (IfSome (I.left inputs.old) (λ _. I.left inputs.new ≡ Some [])) }
    ensures refused { OnRefused result (λ fault. IfSome (I.left inputs.old) (λ text. fault_of text ≡ Some fault)) }
    ensures malformed { IfSome (I.left inputs.old) (λ text. (fault : Fault) → fault_of text ≡ Some fault → IsRefusedAs result fault) }
    ensures well_formed { IfSome (I.left inputs.old) (λ text. (g : Graph) → FileOf text g → IsNotRefused result) }
    ensures failed { OnFailed result (Rose (I.faults inputs.old) (I.faults inputs.new)) }
    ensures later { I.faults inputs.old ≤ I.faults inputs.new }
    ensures files { I.files inputs.new ≡ I.files inputs.old }
{
    if threads == 1 {
        return read_graph(alloc, inputs);
    }
    read_graph_in_batches(token, alloc, threads, BATCH_BYTES, inputs)
}

/// The same as `read_graph_on_threads`, with the lines of vertices in batches of about `room` bytes, also on one
/// thread. A batch has as many lines as it takes to have `room` bytes or more, or all that are left.
///
/// The answer is that of `read_graph`, whatever `threads` and `room` are: `Refused`, `Failed` and what is left of the
/// input are as with `read_graph_on_threads`. Source: METIS 5.1 manual, section 4.1.1.
pub fn read_graph_in_batches<R: Threads + Sync, I: Inputs>(
    token: &R,
    alloc: Global,
    threads: u32,
    room: usize,
    inputs: &mut I,
) -> Result<EdgeList, GraphFault>
    requires threads { 1 ≤ threads }
    requires room { 1 ≤ room }
    requires begun { IsTrue (I.begun inputs.old) }
    ensures ok { IfOk result (λ g. IfSome (I.left inputs.old) (λ text. FileOf text g)) }
    ensures end { OnOk result (IfSome (I.left inputs.old) (λ _. I.left inputs.new ≡ Some [])) }
    ensures refused { OnRefused result (λ fault. IfSome (I.left inputs.old) (λ text. fault_of text ≡ Some fault)) }
    ensures malformed { IfSome (I.left inputs.old) (λ text. (fault : Fault) → fault_of text ≡ Some fault → IsRefusedAs result fault) }
    ensures well_formed { IfSome (I.left inputs.old) (λ text. (g : Graph) → FileOf text g → IsNotRefused result) }
    ensures failed { OnFailed result (Rose (I.faults inputs.old) (I.faults inputs.new)) }
    ensures later { I.faults inputs.old ≤ I.faults inputs.new }
    ensures files { I.files inputs.new ≡ I.files inputs.old }
{
    let file = read_file_in_batches(token, alloc, threads as usize, room, inputs)?;
    graph_of_pieces(token, alloc, threads as usize, file)
}

/// The graph whose edges the lines of the vertices name, found by at most `threads` threads.
fn graph_of_pieces<R: Threads + Sync>(
    token: &R,
    alloc: Global,
    threads: usize,
    file: PieceFile,
) -> Result<EdgeList, GraphFault>
    requires threads { 1 ≤ threads }
    requires read { (lines : List NumberedLine) × ArePieceRowsOf (header_in file.header) file.header.n file.rows lines }
    ensures ok { IfOk result (λ g. (lines : List NumberedLine) → ArePieceRowsOf (header_in file.header) file.header.n file.rows lines → AreLinesOf (header_in file.header) lines g) }
    ensures refused { OnRefused result (λ fault. (lines : List NumberedLine) → ArePieceRowsOf (header_in file.header) file.header.n file.rows lines → pairs_fault (header_in file.header) file.header_line lines ≡ Some fault) }
    ensures failed { OnFailed result ⊥ }
{
    let PieceFile {
        header,
        header_line,
        rows,
    } = file;
    let Some(lists) = rows.pieces.into_full() else {
        return Err(GraphFault::Refused {
            line: header_line,
            kind: Kind::WrongCount,
        });
    };
    match edges_of_on_threads(token, alloc, threads, header.n, lists) {
        Ok(edges) => Ok(EdgeList::new(header.n, edges)),
        Err(fault) => Err(refusal(fault, &rows.numbers)),
    }
}
