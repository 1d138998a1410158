//! A graph as the list of its weighted edges.

ghost use Rattle.std.specs.Prelude.{◌≡◌};

use std::marker::Model;

/// An undirected edge between two vertices, with its weight.
#[derive(Clone, Copy, Debug, PartialEq, Eq)]
pub struct Edge {
    /// One end, a vertex by its number from 1; in an [`EdgeList`] the lesser end.
    pub u: u32,
    /// The other end.
    pub v: u32,
    /// The weight; in an [`EdgeList`] at least 1.
    pub w: u32,
}

/// A graph as its number of vertices and its edges. The edges ascend in (u, v), each pair once, with
/// 1 ≤ u < v ≤ n and w ≥ 1; there are at most [`crate::MAX_VERTICES`] vertices and
/// [`crate::MAX_EDGES`] edges. An edge's index is its place in the list, from 0.
#[derive(Debug, Drop)]
pub struct EdgeList {
    n: u32,
    edges: Vec<Edge>,
}

impl Model for EdgeList {
    ghost use Rattle.pg_base.specs.Graph.{Graph, IsGraph};

    ghost Value = { Graph };

    ghost view = { λ g. record { n = g.n; edges = g.edges.items } };

    ghost invariant = { λ g. IsGraph (record { n = g.n; edges = g.edges.items }) };
}

impl EdgeList {
    ghost use Rattle.pg_base.specs.Graph.{Graph, IsGraph};

    /// The graph of `n` vertices with these edges, which keep the rules of [`EdgeList`]. Allocates nothing.
    pub fn new(n: u32, edges: Vec<Edge>) -> EdgeList
        requires { IsGraph (record { n = n; edges = edges.items }) }
        ensures { result ≡ record { n = n; edges = edges.items } }
    {
        EdgeList { n, edges }
    }

    /// The number of vertices, which are 1 to n.
    pub fn n(&self) -> u32
        ensures value { result ≡ self.now.n }
        ensures graph { IsGraph self.now }
    {
        self.n
    }

    /// The edges, ascending in (u, v). The index of one is its place here, from 0.
    pub fn edges(&self) -> &[Edge]
        ensures value { result.now ≡ self.now.edges }
        ensures graph { IsGraph self.now }
    {
        &self.edges
    }

    /// The list of the edges itself, ascending in (u, v). Allocates nothing.
    pub fn into_edges(self) -> Vec<Edge>
        ensures { result.items ≡ self.edges }
    {
        self.edges
    }
}
