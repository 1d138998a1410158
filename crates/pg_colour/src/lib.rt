//! Colouring over ranks: a rank program that colours its own vertices by first fit, looks at the colours of the other
//! ranks' vertices through ghost cells, and colours again where the two ends of an edge came out alike.
#![tactic(auto)]

mod clashes;
mod colouring;
mod fitting;
pub mod laws;
mod opening;
mod palettes;
mod programs;
mod rounds;
#[cfg(test)]
mod tests;
mod working;

pub use colouring::Colouring;

/// Stands where a vertex has no colour. Colours are lesser.
pub const NO_COLOUR: u64 = u64::MAX;
