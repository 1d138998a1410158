//! Distributions: which rank owns each vertex of a graph, and at which place among the rank's own.
#![tactic(auto)]

mod blocks;
mod distributions;
mod lists;
mod tables;
#[cfg(test)]
mod tests;

pub use blocks::Block;
pub use distributions::Distribution;
pub use lists::Listed;
