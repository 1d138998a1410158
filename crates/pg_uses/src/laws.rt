//! The laws of this crate's definitions. No call does anything: each is proved to meet the laws that its clauses state.

ghost use Rattle.std.specs.Prelude.{[], ◌∷◌};
ghost use Rattle.pg_base.specs.Examples.{graph, path_edges};
ghost use Rattle.pg_uses.specs.Degrees.{IsGreatestDegree};
ghost use Rattle.pg_uses.specs.Neighbours.{AreNeighbourDegrees};
ghost use Rattle.pg_uses.specs.DegreeLaws.{HasOneGreatestDegree, HasOneOfNeighbours};

/// A graph has one greatest degree; that of the path of three vertices, beside a fourth one, is 2.
pub fn degrees()
    ensures one { HasOneGreatestDegree }
    ensures path { IsGreatestDegree (graph 4 path_edges) 2 }
{}

/// A graph has one list of its neighbours' greatest degrees. In the path of three vertices, beside a fourth one, the
/// ends have the middle vertex as their neighbour, of degree 2.
pub fn neighbours()
    ensures one { HasOneOfNeighbours }
    ensures path { AreNeighbourDegrees (graph 4 path_edges) (2 ∷ 1 ∷ 2 ∷ 0 ∷ []) }
{}
