//! What the words of a command line mean. `clap` says which words are options and values, and which are none;
//! the specs of this crate say what a plan is made of them.
#![tactic(auto)]

mod command;
pub mod laws;
mod needs;
mod planning;
mod plans;
mod ranges;
mod told;

pub use planning::plan;
pub use plans::{Algorithm, Plan, PlanFault};
