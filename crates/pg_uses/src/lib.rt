//! Rank programs of a user's own, over the library: the greatest degree of a graph that is divided among ranks, and,
//! over a property map, the greatest degree among each vertex's neighbours. `docs/GUIDE.md` walks through them.
#![tactic(auto)]

mod degrees;
pub mod laws;
mod neighbour_programs;
mod neighbour_runs;
mod neighbours;
mod programs;
mod runs;
#[cfg(test)]
mod tests;

pub use degrees::Degrees;
pub use neighbour_runs::{neighbour_degrees, neighbour_degrees_over, run_neighbour_degrees};
pub use neighbours::NeighbourDegrees;
pub use runs::{greatest_degree, greatest_degree_over, run_degrees};
