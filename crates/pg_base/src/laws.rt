//! What the definitions of this crate's `specs/` say of two small graphs, and what follows from them in
//! general. No call does anything: each is proved to meet the laws that its clauses state.

ghost use Rattle.std.specs.Prelude.{◌≡◌, ◌+◌, ◌^◌, Some, None, [], ◌∷◌, true, false, length};
ghost use Rattle.pg_base.specs.Graph.{IsGraph, arcs_of, arcs_from};
ghost use Rattle.pg_base.specs.Walk.{IsWalk, Joins, IsSimple, weight_of, LeastArcs, LeastWeight, IsLowest};
ghost use Rattle.pg_base.specs.Distances.{AreLeastArcs};
ghost use Rattle.pg_base.specs.Best.{Best, weight_from, hops_from, roots};
ghost use Rattle.pg_base.specs.BestLaws.{BestIsOne, HopsAreLeast, WeightsAreLeast, RootsAreLowest};
ghost use Rattle.pg_base.specs.Forest.{key_lt, lesser_edges, InForest, IsForest, Spans, total_weight};
ghost use Rattle.pg_base.specs.Colouring.{degree, IsProper, AreProper, IsFirstFit};
ghost use Rattle.pg_base.specs.Examples.{edge, arc, graph, path_edges, triangle_edges, triangle_tree, middle_one, middle_zero, middle_two, value};
ghost use Rattle.pg_base.specs.Outcome.{StatusesDiffer};
ghost use Rattle.pg_base.specs.KeyLaws.{KeysAreStrict, KeysCarryOver, KeysTellApart, NumbersOrderKeys};
ghost use Rattle.pg_base.specs.WalkLaws.{ArcsAreEdges, ArcsFromLeave, WalksStayWithin, WalksCompose, WalksRefine, WalksTurnRound, LeastIsOne, LowestIsOne};

use crate::{MAX_EDGES, MAX_RANKS, MAX_VERTICES, MAX_WEIGHT};

/// The limits are 2^20 vertices, 2^23 edges, 32 ranks, and the greatest number of 32 bits as a weight.
pub fn limits()
    ensures vertices { MAX_VERTICES ≡ 1048576 }
    ensures edges { MAX_EDGES ≡ 8388608 }
    ensures ranks { MAX_RANKS ≡ 32 }
    ensures weight { MAX_WEIGHT + 1 ≡ 2 ^ 32 }
{}

/// No two outcomes end with the same exit status.
pub fn statuses()
    ensures apart { StatusesDiffer }
{}

/// The path and the triangle are graphs, and so is a graph of no vertex.
pub fn graphs()
    ensures path { IsGraph (graph 4 path_edges) }
    ensures triangle { IsGraph (graph 3 triangle_edges) }
    ensures empty { IsGraph (graph 0 []) }
{}

/// A list of edges that breaks one rule is no graph.
pub fn no_graphs()
    ensures pair_twice { IsGraph (graph 4 (edge 1 2 5 ∷ edge 1 2 6 ∷ [])) → ⊥ }
    ensures self_edge { IsGraph (graph 4 (edge 2 2 5 ∷ [])) → ⊥ }
    ensures descending_ends { IsGraph (graph 4 (edge 3 2 5 ∷ [])) → ⊥ }
    ensures no_weight { IsGraph (graph 4 (edge 1 2 0 ∷ [])) → ⊥ }
    ensures first_past { IsGraph (graph 4 (edge 0 2 5 ∷ [])) → ⊥ }
    ensures last_past { IsGraph (graph 4 (edge 1 5 5 ∷ [])) → ⊥ }
    ensures out_of_order { IsGraph (graph 4 (edge 2 3 2 ∷ edge 1 2 5 ∷ [])) → ⊥ }
    ensures seconds_out_of_order { IsGraph (graph 4 (edge 1 3 2 ∷ edge 1 2 5 ∷ [])) → ⊥ }
    ensures too_many { IsGraph (graph (MAX_VERTICES + 1) []) → ⊥ }
{}

/// Each edge is an arc in both directions, and the arcs from a vertex are those that leave it.
pub fn arcs()
    ensures both_ways { arcs_of path_edges ≡ arc 1 2 5 ∷ arc 2 1 5 ∷ arc 2 3 2 ∷ arc 3 2 2 ∷ [] }
    ensures middle { arcs_from (arcs_of path_edges) 2 ≡ arc 2 1 5 ∷ arc 2 3 2 ∷ [] }
    ensures alone { arcs_from (arcs_of path_edges) 4 ≡ [] }
    ensures corner { arcs_from (arcs_of triangle_edges) 3 ≡ arc 3 1 4 ∷ arc 3 2 4 ∷ [] }
{}

/// A walk follows arcs of the list end to end, and none of the path leads to vertex 4.
pub fn walks()
    ensures walk { IsWalk (arcs_of path_edges) 1 (arc 1 2 5 ∷ arc 2 3 2 ∷ []) 3 }
    ensures arcs { length (arc 1 2 5 ∷ arc 2 3 2 ∷ []) ≡ 2 }
    ensures weight { weight_of (arc 1 2 5 ∷ arc 2 3 2 ∷ []) ≡ 7 }
    ensures still { IsWalk (arcs_of path_edges) 4 [] 4 }
    ensures parted { IsWalk (arcs_of path_edges) 1 (arc 1 2 5 ∷ arc 3 2 2 ∷ []) 2 → ⊥ }
    ensures other_arc { IsWalk (arcs_of path_edges) 1 (arc 1 3 2 ∷ []) 3 → ⊥ }
    ensures apart { Joins (arcs_of path_edges) 1 4 → ⊥ }
    ensures simple { IsSimple 1 (arc 1 2 5 ∷ arc 2 3 2 ∷ []) }
    ensures returns { IsSimple 1 (arc 1 2 5 ∷ arc 2 1 5 ∷ []) → ⊥ }
{}

/// The least numbers of arcs from vertex 1.
pub fn least_arcs()
    ensures path_1 { LeastArcs (arcs_of path_edges) 1 1 (Some 0) }
    ensures path_2 { LeastArcs (arcs_of path_edges) 1 2 (Some 1) }
    ensures path_3 { LeastArcs (arcs_of path_edges) 1 3 (Some 2) }
    ensures path_4 { LeastArcs (arcs_of path_edges) 1 4 None }
    ensures triangle_1 { LeastArcs (arcs_of triangle_edges) 1 1 (Some 0) }
    ensures triangle_2 { LeastArcs (arcs_of triangle_edges) 1 2 (Some 1) }
    ensures triangle_3 { LeastArcs (arcs_of triangle_edges) 1 3 (Some 1) }
{}

/// The least numbers of arcs from vertex 1 to all vertices of the path, as a list.
pub fn distances()
    ensures path { AreLeastArcs (graph 4 path_edges) 1 (Some 0 ∷ Some 1 ∷ Some 2 ∷ None ∷ []) }
    ensures past { AreLeastArcs (graph 4 path_edges) 1 (Some 0 ∷ Some 1 ∷ Some 2 ∷ []) → ⊥ }
{}

/// The least weights from vertex 1.
pub fn least_weights()
    ensures path_1 { LeastWeight (arcs_of path_edges) 1 1 (Some 0) }
    ensures path_2 { LeastWeight (arcs_of path_edges) 1 2 (Some 5) }
    ensures path_3 { LeastWeight (arcs_of path_edges) 1 3 (Some 7) }
    ensures path_4 { LeastWeight (arcs_of path_edges) 1 4 None }
    ensures triangle_3 { LeastWeight (arcs_of triangle_edges) 1 3 (Some 4) }
{}

/// The lowest vertices from which walks lead to those of the path.
pub fn lowest_vertices()
    ensures path_1 { IsLowest (arcs_of path_edges) 1 1 }
    ensures path_2 { IsLowest (arcs_of path_edges) 2 1 }
    ensures path_3 { IsLowest (arcs_of path_edges) 3 1 }
    ensures path_4 { IsLowest (arcs_of path_edges) 4 4 }
    ensures not_itself { IsLowest (arcs_of path_edges) 3 2 → ⊥ }
{}

/// The best values at vertices of the path and the triangle: by weight, by hops, and by roots.
pub fn best_values()
    ensures by_weight { Best (weight_from 1) (arcs_of path_edges) 3 (Some (value 0 7 2)) }
    ensures by_hops { Best (hops_from 1) (arcs_of triangle_edges) 3 (Some (value 0 1 1)) }
    ensures away { Best (weight_from 1) (arcs_of path_edges) 4 None }
    ensures by_root { Best roots (arcs_of path_edges) 4 (Some (value 4 0 0)) }
    ensures longer { Best (hops_from 1) (arcs_of triangle_edges) 3 (Some (value 0 2 2)) → ⊥ }
{}

/// Keys go by weight, and where weights are equal by the ends.
pub fn keys()
    ensures by_weight { key_lt (edge 2 3 2) (edge 1 2 5) ≡ true }
    ensures by_first { key_lt (edge 1 3 4) (edge 2 3 4) ≡ true }
    ensures by_second { key_lt (edge 1 2 4) (edge 1 3 4) ≡ true }
    ensures not_back { key_lt (edge 1 3 4) (edge 1 2 4) ≡ false }
    ensures not_itself { key_lt (edge 1 2 4) (edge 1 2 4) ≡ false }
    ensures lesser { lesser_edges triangle_edges (edge 2 3 4) ≡ triangle_tree }
{}

/// The path is its own forest. Of the triangle's equal weights the edge with the last ends is left out.
pub fn forests()
    ensures path_first { InForest path_edges (edge 1 2 5) }
    ensures path_second { InForest path_edges (edge 2 3 2) }
    ensures triangle_first { InForest triangle_edges (edge 1 2 4) }
    ensures triangle_second { InForest triangle_edges (edge 1 3 4) }
    ensures triangle_third { InForest triangle_edges (edge 2 3 4) → ⊥ }
    ensures only_edges { InForest path_edges (edge 3 4 1) → ⊥ }
    ensures whole { IsForest triangle_edges triangle_tree }
    ensures all_three { IsForest triangle_edges triangle_edges → ⊥ }
{}

/// What the triangle's forest spans and weighs, and lists that span nothing.
pub fn spanning()
    ensures tree { Spans triangle_edges triangle_tree }
    ensures weight { total_weight triangle_tree ≡ 8 }
    ensures lacking { Spans path_edges (edge 1 2 5 ∷ []) → ⊥ }
    ensures foreign { Spans path_edges (edge 1 2 5 ∷ edge 2 3 2 ∷ edge 3 4 1 ∷ []) → ⊥ }
{}

/// Degrees of the path's vertices, and colours of the path that are proper or not.
pub fn colourings()
    ensures degree_1 { degree path_edges 1 ≡ 1 }
    ensures degree_2 { degree path_edges 2 ≡ 2 }
    ensures degree_4 { degree path_edges 4 ≡ 0 }
    ensures proper { IsProper (graph 4 path_edges) middle_one }
    ensures one_colour { IsProper (graph 4 path_edges) (λ v. 0) → ⊥ }
    ensures past_degree { IsProper (graph 4 path_edges) middle_zero → ⊥ }
    ensures listed { AreProper (graph 4 path_edges) (0 ∷ 1 ∷ 0 ∷ 0 ∷ []) }
    ensures lacking { AreProper (graph 4 path_edges) (0 ∷ 1 ∷ 0 ∷ []) → ⊥ }
    ensures first_fit { IsFirstFit (graph 4 path_edges) middle_one }
    ensures skips_one { IsFirstFit (graph 4 path_edges) middle_two → ⊥ }
{}

/// The arcs of edges are the edges' directions, and the walks of a graph stay among its vertices.
pub fn arc_laws()
    ensures edges { ArcsAreEdges }
    ensures leave { ArcsFromLeave }
    ensures within { WalksStayWithin }
{}

/// Walks compose, can be refined arc by arc, and turn round along undirected edges.
pub fn walk_laws()
    ensures compose { WalksCompose }
    ensures refine { WalksRefine }
    ensures turn_round { WalksTurnRound }
{}

/// The least measure of a walk is one number or none, and the lowest vertex is one.
pub fn answer_laws()
    ensures least { LeastIsOne }
    ensures lowest { LowestIsOne }
{}

/// The best value is one. By hops, weights and roots its amount or class is the least number of arcs, the least weight
/// and the lowest vertex.
pub fn best_laws()
    ensures one { BestIsOne }
    ensures hops { HopsAreLeast }
    ensures weights { WeightsAreLeast }
    ensures roots { RootsAreLowest }
{}

/// Keys are a strict order: of two different edges one has the lesser key. In a graph w * 2^23 + index orders edges
/// alike.
pub fn key_laws()
    ensures strict { KeysAreStrict }
    ensures carry_over { KeysCarryOver }
    ensures tell_apart { KeysTellApart }
    ensures numbers { NumbersOrderKeys }
{}
