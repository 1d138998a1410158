//! Kernels over lists of numbers, eight entries at a time in the lanes of `std::simd`. Each answers what a plain loop
//! over the list does, at every length, and allocates nothing. Their time is proportional to the entries that they
//! read. `specs/Kernels.antt` says what they answer.
#![tactic(auto)]

mod free;
mod lesser;
mod lowest;
#[cfg(test)]
mod tests;

pub use free::first_free;
pub use lesser::min_into;
pub use lowest::least;

/// How many entries of 64 bits a vector holds.
pub(crate) const LANES: usize = 8;
