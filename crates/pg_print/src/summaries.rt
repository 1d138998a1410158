//! The summary of a grid, in seven lines.
ghost use Rattle.std.specs.Prelude.{◌≡◌, ◌≤◌, length, map, OnOk, OnErr};
ghost use Rattle.std.specs.Io.KnownBytes.{Appends};
ghost use Rattle.pg_outside.specs.Faults.{Rose};
ghost use Rattle.pg_outside.specs.Written.{AppendsFront};
ghost use Rattle.pg_print.specs.Summaries.{summary_lines, summary_text, tally_line};

use crate::lines::{LINE, number_line, pair_line, triple_line};
use arrayvec::ArrayString;
use pg_outside::{Failed, Sink};

/// Of the vertices that a walk joins to vertex 1: how many there are, and how far they are from it.
#[derive(Clone, Copy, Debug, PartialEq, Eq)]
pub struct Tally {
    /// How many there are, vertex 1 among them.
    pub count: u64,
    /// The greatest of their distances.
    pub far: u64,
    /// The sum of their distances.
    pub sum: u64,
}

/// What all algorithms found on one graph, in numbers.
#[derive(Clone, Copy, Debug, PartialEq, Eq)]
pub struct Summary {
    /// How many vertices the graph has.
    pub vertices: u32,
    /// How many edges it has.
    pub edges: u32,
    /// The distances by least numbers of arcs.
    pub hops: Tally,
    /// The distances by least weights.
    pub weights: Tally,
    /// How many components there are.
    pub components: u32,
    /// How many edges the least spanning forest has.
    pub forest: u32,
    /// The sum of their weights.
    pub total: u64,
    /// How many edges have ends of one colour.
    pub clashes: u32,
}

/// Writes the seven lines of a summary, each by one call. After an `Err`, which comes only where the sink's count of
/// faults rose, a front of this text was written.
/// Source: docs/FORMAT.md, the texts of answers.
pub fn print_summary<S: Sink>(out: &mut S, summary: &Summary) -> Result<(), Failed>
    ensures ok { OnOk result (Appends (S.text out.old) (S.text out.new) (summary_text summary.now)) }
    ensures err { OnErr result (AppendsFront (S.text out.old) (S.text out.new) (summary_text summary.now)) }
    ensures cause { OnErr result (Rose (S.faults out.old) (S.faults out.new)) }
    ensures later { S.faults out.old ≤ S.faults out.new }
{
    for line in &lines_of(summary) {
        out.write_all(line.as_str().as_bytes())?;
    }
    Ok(())
}

/// The lines of a summary.
fn lines_of(summary: &Summary) -> [ArrayString<LINE>; 7]
    ensures { map (λ line. line.bytes) result ≡ summary_lines summary.now }
{
    [
        number_line("vertices", u64::from(summary.vertices)),
        number_line("edges", u64::from(summary.edges)),
        tally_line("hops", summary.hops),
        tally_line("weights", summary.weights),
        number_line("components", u64::from(summary.components)),
        pair_line("forest", u64::from(summary.forest), summary.total),
        number_line("clashes", u64::from(summary.clashes)),
    ]
}

/// A line of a name and a tally.
fn tally_line(name: &str, tally: Tally) -> ArrayString<LINE>
    requires { length name.now ≤ 12 }
    ensures { result.bytes ≡ tally_line name.now tally }
{
    triple_line(name, tally.count, tally.far, tally.sum)
}
