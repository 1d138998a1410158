//! Every algorithm in turn over one graph, divided in blocks, and its summary.
ghost use Rattle.std.specs.Prelude.{◌≡◌, ℕ, ◌≤◌, IfOk, None, length};
ghost use Rattle.pg_print.specs.Forests.{edges_at};
ghost use Rattle.pg_agenda.specs.BucketPhases.{takes_by};
ghost use Rattle.pg_base.specs.Distances.{AreLeastArcs};
ghost use Rattle.pg_top.specs.declared.columns.Field.TheVariants.{Amount};
ghost use Rattle.pg_top.specs.Answered.{text_in};
ghost use Rattle.pg_top.specs.Paired.{IsPairCarried};
ghost use Rattle.pg_top.specs.Summary.{clash_count};
ghost use Rattle.pg_top.specs.Text.{AreLeastWeights, AreLowest, IsLeastForest, IsSmallGrid, IsSummaryText};
ghost use Rattle.pg_top.specs.Work.{HasColours, HasForest, IsCarried, IsSummarized};

use crate::Work;
use crate::answers::Answers;
use crate::colours::{Coloured, proper_colours};
use crate::crews::Crew;
use crate::forests::{Grown, least_forest};
use crate::inputs::Input;
use crate::pairs::{Searched, hops_and_roots};
use crate::solving::{Relaxed, Solved, least_weights};
use crate::tallying::summary;
use pg_agenda::Buckets;
use pg_base::{EdgeList, Gate, OutOfMemory};
use pg_label::Weight;
use std::alloc::Global;
use std::sync::Wait;
use std::thread::Threads;

/// The vertex that distances on a grid count from.
const FIRST: u32 = 1;

/// A copy of the graph, to be divided in blocks.
fn in_blocks(alloc: Global, graph: &EdgeList) -> Result<Input, OutOfMemory>
    ensures graph { IfOk result (λ input. input.graph ≡ graph.now) }
    ensures owners { IfOk result (λ input. input.owners ≡ None) }
{
    let n = graph.n();
    let Ok(edges) = Vec::from_slice(alloc, graph.edges()) else {
        return Err(OutOfMemory);
    };
    Ok(Input {
        graph: EdgeList::new(n, edges),
        owners: None,
    })
}

/// Finds the least weights from the first vertex of the graph, by buckets of this width.
fn weigh<W: Threads + Wait + Sync, G: Gate>(
    token: &W,
    alloc: Global,
    graph: &EdgeList,
    delta: u32,
    crew: &Crew,
    gate: &G,
) -> Result<Relaxed<Weight, Buckets>, OutOfMemory>
    requires a_width { 1 ≤ delta }
    ensures least { IfOk result (λ r. AreLeastWeights graph.now 1 r.answers.of_vertices.items) }
    ensures carried { IfOk result (λ r. IsCarried (record { source = 1 }) (takes_by delta) Amount None crew.now.ranks crew.now.capacity graph.now
        r.answers.of_vertices.items r.finished.programs.items r.finished.lanes.items) }
{
    let input = in_blocks(alloc, graph)?;
    least_weights(token, alloc, input, FIRST, delta, crew, gate)
}

/// Finds the least spanning forest of the graph.
fn span<W: Threads + Wait + Sync, G: Gate>(
    token: &W,
    alloc: Global,
    graph: &EdgeList,
    crew: &Crew,
    gate: &G,
) -> Result<Grown, OutOfMemory>
    ensures least { IfOk result (λ grown. IsLeastForest graph.now (edges_at grown.tree.graph.edges grown.tree.indices.items)) }
    ensures held { IfOk result (λ grown. HasForest None crew.now.ranks crew.now.capacity graph.now (edges_at grown.tree.graph.edges grown.tree.indices.items)
        grown.finished.programs.items grown.finished.lanes.items) }
{
    let input = in_blocks(alloc, graph)?;
    least_forest(token, alloc, input, crew, gate)
}

/// Colours the graph.
fn colour<W: Threads + Wait + Sync, G: Gate>(
    token: &W,
    alloc: Global,
    graph: &EdgeList,
    crew: &Crew,
    gate: &G,
) -> Result<Coloured, OutOfMemory>
    ensures { IfOk result (λ c. HasColours None crew.now.ranks crew.now.capacity graph.now c.colours.of_vertices.items
        c.finished.programs.items c.finished.lanes.items) }
{
    let input = in_blocks(alloc, graph)?;
    proper_colours(token, alloc, input, crew, gate)
}

/// Runs every algorithm over the graph in turn, a breadth-first search and components in one run, and counts what they
/// answer. Distances are those from vertex 1. `Err` says that the run is out of memory.
pub(crate) fn summarize<W: Threads + Wait + Sync, G: Gate>(
    token: &W,
    alloc: Global,
    graph: EdgeList,
    delta: u32,
    crew: &Crew,
    gate: &G,
) -> Result<Solved, OutOfMemory>
    requires a_width { 1 ≤ delta }
    requires small { IsSmallGrid graph }
    ensures right { IfOk result (λ s. IsSummaryText graph (text_in s.answers)) }
    ensures work { IfOk result (λ s. IsSummarized delta crew.now.ranks crew.now.capacity graph (text_in s.answers) s.work) }
{
    let searched = hops_and_roots(token, alloc, &graph, FIRST, crew, gate)?;
    let weighted = weigh(token, alloc, &graph, delta, crew, gate)?;
    let grown = span(token, alloc, &graph, crew, gate)?;
    let coloured = colour(token, alloc, &graph, crew, gate)?;
    Ok(told(&graph, searched, weighted, grown, coloured))
}

/// The summary of what was found on the graph, and the programs and lanes that ended with it.
fn told(
    graph: &EdgeList,
    searched: Searched,
    weighted: Relaxed<Weight, Buckets>,
    grown: Grown,
    coloured: Coloured,
) -> Solved
    requires small { IsSmallGrid graph.now }
    requires hops { AreLeastArcs graph.now 1 searched.hops.of_vertices.items }
    requires weights { AreLeastWeights graph.now 1 weighted.answers.of_vertices.items }
    requires roots { AreLowest graph.now searched.roots.of_vertices.items }
    requires forest { IsLeastForest graph.now (edges_at grown.tree.graph.edges grown.tree.indices.items) }
    requires colours { length coloured.colours.of_vertices.items ≡ graph.now.n }
    requires apart { clash_count graph.now.edges coloured.colours.of_vertices.items ≡ 0 }
    ensures right { IsSummaryText graph.now (text_in result.answers) }
    ensures work { (delta ranks capacity : ℕ) →
        IsPairCarried 1 ranks capacity graph.now searched.hops.of_vertices.items searched.roots.of_vertices.items searched.finished.programs.items searched.finished.lanes.items →
        IsCarried (record { source = 1 }) (takes_by delta) Amount None ranks capacity graph.now weighted.answers.of_vertices.items weighted.finished.programs.items weighted.finished.lanes.items →
        HasForest None ranks capacity graph.now (edges_at grown.tree.graph.edges grown.tree.indices.items) grown.finished.programs.items grown.finished.lanes.items →
        HasColours None ranks capacity graph.now coloured.colours.of_vertices.items coloured.finished.programs.items coloured.finished.lanes.items →
        IsSummarized delta ranks capacity graph.now (text_in result.answers) result.work }
{
    let _n = graph.n();
    let summary = summary(
        graph,
        &searched.hops.of_vertices,
        &weighted.answers.of_vertices,
        &searched.roots.of_vertices,
        &grown.tree,
        &coloured.colours.of_vertices,
    );
    Solved {
        answers: Answers::Summary(summary),
        work: Work::Grid {
            both: searched.finished,
            weights: weighted.finished,
            forest: grown.finished,
            colours: coloured.finished,
        },
    }
}
