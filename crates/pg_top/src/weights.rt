//! The greatest weight of a graph.
ghost use Rattle.std.specs.Prelude.{◌≤◌, All};
ghost use Rattle.pg_base.specs.Graph.{IsGraph};

use pg_base::EdgeList;

/// The greatest weight of an edge, 0 where there is none.
pub(crate) fn heaviest(graph: &EdgeList) -> u32
    ensures graph { IsGraph graph.now }
    ensures most { All (λ e. e.w ≤ result) graph.now.edges }
{
    let mut most = 0;
    for edge in graph.edges() {
        most = most.max(edge.w);
    }
    most
}
