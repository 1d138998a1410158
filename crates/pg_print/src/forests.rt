//! The edges of a forest and their total, one line each.
ghost use Rattle.std.specs.Prelude.{◌≡◌, ◌<◌, ◌≤◌, All, codes, length, OnOk, OnErr};
ghost use Rattle.std.specs.Io.KnownBytes.{Appends};
ghost use Rattle.pg_outside.specs.Faults.{Rose};
ghost use Rattle.pg_outside.specs.Written.{AppendsFront};
ghost use Rattle.pg_print.specs.Forests.{edge_line, edges_at, forest_text};
ghost use Rattle.pg_print.specs.Lines.{number_line};

use crate::lines::{number_line, pair_line};
use itoa::Buffer;
use pg_base::{Edge, EdgeList};
use pg_outside::{Failed, Sink};

/// Writes a line `u v w` for each of the graph's edges with these indices, from 0, in this order, and then `total T`
/// with the sum T of their weights, each line by one call. After an `Err`, which comes only where the sink's count of
/// faults rose, a front of this text was written.
/// Source: docs/FORMAT.md, the texts of answers.
pub fn print_forest<S: Sink>(out: &mut S, graph: &EdgeList, edges: &[u32]) -> Result<(), Failed>
    requires indices { All (λ i. i < length graph.now.edges) edges.now }
    requires at_most { length edges.now ≤ length graph.now.edges }
    ensures ok { OnOk result (Appends (S.text out.old) (S.text out.new) (forest_text (edges_at graph.now.edges edges.now))) }
    ensures err { OnErr result (AppendsFront (S.text out.old) (S.text out.new) (forest_text (edges_at graph.now.edges edges.now))) }
    ensures cause { OnErr result (Rose (S.faults out.old) (S.faults out.new)) }
    ensures later { S.faults out.old ≤ S.faults out.new }
{
    let graph_edges = graph.edges();
    let mut total = 0_u64;
    for index in edges {
        let edge = graph_edges[*index as usize];
        print_edge(out, edge)?;
        total += u64::from(edge.w);
    }
    print_total(out, total)
}

/// Writes the line of an edge.
fn print_edge<S: Sink>(out: &mut S, edge: Edge) -> Result<(), Failed>
    ensures ok { OnOk result (Appends (S.text out.old) (S.text out.new) (edge_line edge)) }
    ensures err { OnErr result (AppendsFront (S.text out.old) (S.text out.new) (edge_line edge)) }
    ensures cause { OnErr result (Rose (S.faults out.old) (S.faults out.new)) }
    ensures later { S.faults out.old ≤ S.faults out.new }
    ensures weight { edge.w ≤ 4294967295 }
{
    let mut lesser_end = Buffer::new();
    let line = pair_line(
        lesser_end.format(edge.u),
        u64::from(edge.v),
        u64::from(edge.w),
    );
    out.write_all(line.as_str().as_bytes())
}

/// Writes the line of the sum of the weights.
fn print_total<S: Sink>(out: &mut S, total: u64) -> Result<(), Failed>
    ensures ok { OnOk result (Appends (S.text out.old) (S.text out.new) (number_line (codes "total") total)) }
    ensures err { OnErr result (AppendsFront (S.text out.old) (S.text out.new) (number_line (codes "total") total)) }
    ensures cause { OnErr result (Rose (S.faults out.old) (S.faults out.new)) }
    ensures later { S.faults out.old ≤ S.faults out.new }
{
    let line = number_line("total", total);
    out.write_all(line.as_str().as_bytes())
}
