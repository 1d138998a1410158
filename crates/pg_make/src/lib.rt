//! The grid generator: a graph of rows and columns whose edges and weights are drawn from a seed, the same for the same
//! seed everywhere. `specs/Grid.antt` says which graph.
#![tactic(auto)]

mod drawing;
mod grids;
pub mod laws;
#[cfg(test)]
mod tests;

pub use grids::grid;

/// The greatest weight of a grid's edge.
pub const MAX_GRID_WEIGHT: u32 = 4_096;
