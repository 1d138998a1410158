//! Laws of least spanning forests over any list of edges, of walks that meet no vertex twice, and of the phases of
//! Borůvka's method; and an edge's key in one number. The definitions of forests and walks stand in `pg_base`.
#![tactic(auto)]

mod keys;
pub mod laws;
#[cfg(test)]
mod tests;

pub use keys::{index_of, key_of};
