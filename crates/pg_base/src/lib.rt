//! What every other crate names: vertices and ranks, edge lists, the outcome of a run, and the gate by
//! which a test holds a rank. The definitions of the answers (walks, least walks, forests, colourings)
//! stand in this crate's `specs/`, over one undivided list of edges.
#![tactic(auto)]

mod edges;
mod gates;
pub mod laws;
mod numbers;
mod outcomes;
pub mod rows;

pub use edges::{Edge, EdgeList};
pub use gates::{Gate, OpenGate};
pub use numbers::{RankNo, Ranks, Vertex};
pub use outcomes::{OutOfMemory, Status};

/// The greatest number of vertices of a graph.
pub const MAX_VERTICES: u32 = 1_048_576;

/// The greatest number of edges of a graph.
pub const MAX_EDGES: u32 = 8_388_608;

/// The greatest weight of an edge.
pub const MAX_WEIGHT: u32 = u32::MAX;

/// The greatest number of ranks of a group.
pub const MAX_RANKS: u32 = 32;

#[cfg(test)]
mod tests;
