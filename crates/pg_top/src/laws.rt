//! What the definitions of this crate's `specs/` say of small graphs, and what follows from them in general. No call does
//! anything: each is proved to meet the laws that its clauses state.

ghost use Rattle.std.specs.Prelude.{codes, []};
ghost use Rattle.pg_base.specs.Examples.{graph, path_edges, triangle_edges};
ghost use Rattle.pg_words.specs.declared.plans.Algorithm.TheVariants.{Bfs, Sssp, Components, Forest, Colour, Grid};
ghost use Rattle.pg_top.specs.Text.{IsAnswerText};
ghost use Rattle.pg_top.specs.TextLaws.{TextIsOne};
ghost use Rattle.pg_metis.specs.Examples.{path};
ghost use Rattle.pg_top.specs.Examples.{path_and_one};

use pg_base::laws::{colourings, forests};

/// What a search prints, and sources that are no vertices.
pub fn search_texts()
    ensures path_from_1 { IsAnswerText Bfs 1 1 path (codes "0\n1\n2\n") }
    ensures path_from_2 { IsAnswerText Bfs 1 2 path (codes "1\n0\n1\n") }
    ensures alone { IsAnswerText Bfs 1 1 path_and_one (codes "0\n1\n2\n-\n") }
    ensures below { IsAnswerText Bfs 1 0 path (codes "0\n1\n2\n") → ⊥ }
    ensures above { IsAnswerText Bfs 1 4 path (codes "0\n1\n2\n") → ⊥ }
    ensures other { IsAnswerText Bfs 1 1 path (codes "0\n1\n1\n") → ⊥ }
{}

/// What least weights and components print, for a path with the weights 5 and 2 beside a vertex of its own.
pub fn other_texts()
    ensures weights { IsAnswerText Sssp 1 1 (graph 4 path_edges) (codes "0\n5\n7\n-\n") }
    ensures weights_count_no_arcs { IsAnswerText Sssp 1 1 (graph 4 path_edges) (codes "0\n1\n2\n-\n") → ⊥ }
    ensures weights_below { IsAnswerText Sssp 1 0 (graph 4 path_edges) (codes "0\n5\n7\n-\n") → ⊥ }
    ensures roots { IsAnswerText Components 1 0 (graph 4 path_edges) (codes "1\n1\n1\n4\n") }
    ensures summary { IsAnswerText Grid 1 0 (graph 1 []) (codes "vertices 1\nedges 0\nhops 1 0 0\nweights 1 0 0\ncomponents 1\nforest 0 0\nclashes 0\n") }
    ensures summary_with_clashes { IsAnswerText Grid 1 0 (graph 1 []) (codes "vertices 1\nedges 0\nhops 1 0 0\nweights 1 0 0\ncomponents 1\nforest 0 0\nclashes 1\n") → ⊥ }
{}

/// What forests print: of a triangle's equal weights the edge with the last ends is left out, and no other one.
pub fn forest_texts()
    ensures triangle { IsAnswerText Forest 1 0 (graph 3 triangle_edges) (codes "1 2 4\n1 3 4\ntotal 8\n") }
    ensures other_tree { IsAnswerText Forest 1 0 (graph 3 triangle_edges) (codes "1 2 4\n2 3 4\ntotal 8\n") → ⊥ }
    ensures lacking { IsAnswerText Forest 1 0 (graph 3 triangle_edges) (codes "1 2 4\ntotal 4\n") → ⊥ }
{
    forests();
}

/// What colourings print. On one rank the first vertex has the colour 0.
pub fn colour_texts()
    ensures path { IsAnswerText Colour 1 0 (graph 4 path_edges) (codes "0\n1\n0\n0\n") }
    ensures other_first { IsAnswerText Colour 1 0 (graph 4 path_edges) (codes "1\n0\n1\n0\n") → ⊥ }
{
    colourings();
}

/// An algorithm, a graph and a source have at most one text, the colours on one rank.
pub fn text_laws()
    ensures { TextIsOne }
{}
