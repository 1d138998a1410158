//! Two programs over one group: a pair of programs is one program, whose messages are those of its members.
#![tactic(auto)]

mod items;
pub mod laws;
mod members;
mod outs;
mod pairs;
mod votes;

pub use items::Of2;
pub use pairs::Pair;
