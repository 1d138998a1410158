//! The numbers of a summary, counted from the answers.
ghost use Rattle.std.specs.Prelude.{◌≡◌, ◌<◌, ◌≤◌, All, length};
ghost use Rattle.pg_base.specs.Forest.{total_weight};
ghost use Rattle.pg_base.specs.Graph.{IsEdge};
ghost use Rattle.pg_base.specs.declared.TheConstants.{MAX_EDGES, MAX_VERTICES};
ghost use Rattle.pg_print.specs.Forests.{edges_at};
ghost use Rattle.pg_top.specs.Summary.{clash_count, component_count, max_distance, number_in, number_of, summary_of, tally_of};

use crate::columns::Tree;
use pg_base::{Edge, EdgeList};
use pg_print::{Summary, Tally};

/// The number of an answer, 0 where there is none.
fn number_in(answer: Option<u64>) -> u64
    ensures { result ≡ number_in answer }
{
    answer.unwrap_or(0)
}

/// How many distances there are, and the greatest and the sum of them.
fn tally(distances: &[Option<u64>]) -> Tally
    requires few { length distances.now ≤ MAX_VERTICES }
    requires short { All (λ d. number_in d ≤ max_distance) distances.now }
    ensures { result ≡ tally_of distances.now }
{
    let mut tally = Tally {
        count: 0,
        far: 0,
        sum: 0,
    };
    for distance in distances {
        if let Some(distance) = *distance {
            tally.count += 1;
            tally.far = tally.far.max(distance);
            tally.sum += distance;
        }
    }
    tally
}

/// How many vertices are the lowest of their component.
fn components(roots: &[Option<u64>]) -> u32
    requires few { length roots.now ≤ MAX_VERTICES }
    ensures { result ≡ component_count roots.now }
{
    let mut count = 0;
    for place in 0..roots.len() {
        if number_in(roots[place]) == place as u64 + 1 {
            count += 1;
        }
    }
    count
}

/// How many edges have ends of one colour.
fn clashes(edges: &[Edge], colours: &[Option<u64>]) -> u32
    requires few { length edges.now ≤ MAX_EDGES }
    requires within { All (IsEdge (length colours.now)) edges.now }
    ensures { result ≡ clash_count edges.now colours.now }
{
    let mut count = 0;
    for edge in edges {
        let one = number_in(colours[edge.u as usize - 1]);
        if one == number_in(colours[edge.v as usize - 1]) {
            count += 1;
        }
    }
    count
}

/// The sum of the weights of the edges with these indices.
fn total(edges: &[Edge], indices: &[u32]) -> u64
    requires within { All (λ i. i < length edges.now) indices.now }
    requires few { length indices.now ≤ MAX_EDGES }
    ensures { result ≡ total_weight (edges_at edges.now indices.now) }
{
    let mut total = 0_u64;
    for index in indices {
        total += u64::from(edges[*index as usize].w);
    }
    total
}

/// The summary of a graph, counted from what each algorithm answers on it. An answer for vertex v stands at place v - 1.
pub(crate) fn summary(
    graph: &EdgeList,
    hops: &[Option<u64>],
    weights: &[Option<u64>],
    roots: &[Option<u64>],
    tree: &Tree,
    colours: &[Option<u64>],
) -> Summary
    requires hops { length hops.now ≡ graph.now.n }
    requires weights { length weights.now ≡ graph.now.n }
    requires roots { length roots.now ≡ graph.now.n }
    requires colours { length colours.now ≡ graph.now.n }
    requires short_hops { All (λ d. number_in d ≤ max_distance) hops.now }
    requires short_weights { All (λ d. number_in d ≤ max_distance) weights.now }
    ensures { result ≡ summary_of graph.now hops.now weights.now roots.now (edges_at tree.now.graph.edges tree.now.indices.items) (clash_count graph.now.edges colours.now) }
{
    let edges = graph.edges();
    let candidates = tree.graph.edges();
    Summary {
        vertices: graph.n(),
        edges: edges.len() as u32,
        hops: tally(hops),
        weights: tally(weights),
        components: components(roots),
        forest: tree.indices.len() as u32,
        total: total(candidates, &tree.indices),
        clashes: clashes(edges, colours),
    }
}
