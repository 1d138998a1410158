//! Answers as they are printed: a number for each vertex, or edges of a graph.
ghost use Rattle.std.specs.Prelude.{◌<◌, ◌≤◌, All, length};
ghost use Rattle.pg_base.specs.declared.TheConstants.{MAX_VERTICES};

use pg_base::{EdgeList, Vertex};
use pg_print::Column;

/// Which number of a vertex's value an algorithm answers.
#[derive(Clone, Copy, Debug, PartialEq, Eq)]
pub(crate) enum Field {
    Amount,
    Class,
}

/// A number or none for each vertex, that of vertex v at place v - 1.
#[derive(Drop)]
pub(crate) struct Numbers {
    pub of_vertices: Vec<Option<u64>>,
    ghost few: { length of_vertices.items ≤ MAX_VERTICES },
}

impl Column for Numbers {
    ghost answers = { λ a. a.of_vertices.items };

    fn len(&self) -> u32 {
        self.of_vertices.len() as u32
    }

    fn at(&self, v: Vertex) -> Option<u64> {
        self.of_vertices[v.0 as usize - 1]
    }
}

/// Edges of a graph, by their indices in its list, from 0.
#[derive(Drop)]
pub(crate) struct Tree {
    pub graph: EdgeList,
    pub indices: Vec<u32>,
    ghost within: { All (λ i. i < length graph.edges) indices.items },
    ghost few: { length indices.items ≤ length graph.edges },
}
