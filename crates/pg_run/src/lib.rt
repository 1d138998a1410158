//! Runs rank programs: each in a machine of its own, turn by turn, until all have ended.
#![tactic(auto)]

mod cutting;
mod driven;
mod driving;
mod ending;
mod finished;
mod groups;
mod marking;
mod outlets;
mod polling;
mod runners;
mod running;
mod threading;
mod turning;
mod turns;
mod working;

pub use driving::drive;
pub use finished::Finished;
pub use groups::{Assembly, Group, Machine, assemble};
pub use runners::Runner;
pub use running::run;
pub use turns::Turn;
