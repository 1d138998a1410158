//! The law of Borůvka's method over ranks: where each rank keeps a local relation between what it handled and sent, all
//! of them end with exactly the least spanning forest.
//! Source: Borůvka, O jistém problému minimálním (1926), in the translation of Nešetřil, Milková and Nešetřilová
//! (2001); Dehne and Götz, Practical parallel algorithms for minimum spanning trees (1998), for labels that every rank
//! keeps of all vertices.
#![tactic(auto)]

mod arcs;
mod blocks;
mod chosen;
mod cutting;
mod dense;
mod gathering;
mod hooks;
pub mod laws;
mod messages;
mod pointers;
mod programs;
mod rounds;
mod sending;
mod tables;
#[cfg(test)]
mod tests;
mod winners;

pub use dense::Dense;
pub use messages::{Hook, Message, Piece};
pub(crate) use rounds::Phases;

/// Stands where there is no key. Keys are lesser.
pub const NO_KEY: u64 = u64::MAX;
