//! Relaxation over ranks: a rank program that keeps a value for each of its vertices and offers the values of walks
//! that go on to vertices of other ranks. In whatever order the offers come, each value ends as the least over walks.
#![tactic(auto)]

mod ahead;
mod frontiers;
pub mod laws;
mod offered;
mod opening;
mod passing;
mod programs;
mod relaxing;
mod rounds;
mod tables;
#[cfg(test)]
mod tests;
mod working;

pub use pg_best::Offer;
pub use relaxing::Relax;
