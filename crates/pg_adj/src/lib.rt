//! Graphs divided among ranks: at each rank the arcs of its own vertices, the vertices of other ranks that
//! these arcs lead to (its ghosts), and for each own vertex the ranks that hold it as a ghost.
#![tactic(auto)]

mod arc_slots;
mod arcs;
mod blocks;
mod filling;
mod ghosts;
mod holders;
pub mod laws;
mod own_filling;
mod owning;
mod parts;
mod rank_sets;
mod rows;
mod shares;
mod sizing;
mod splitting;

pub use arcs::{Arc, Ghost, Holder};
pub use parts::Part;
pub use splitting::{split, split_on_threads};
