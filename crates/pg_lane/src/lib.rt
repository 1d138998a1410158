//! Lanes: queues of a fixed capacity with one end that pushes and one end that pops, each owned by one rank.
//! The list of the messages taken, followed by what the lane holds, is always the list of those sent.
#![tactic(auto)]

mod ends;
mod kinds;
pub mod laws;
mod rings;
mod rules;
mod settling;
mod showing;
#[cfg(test)]
mod tests;

pub use ends::{Full, InEnd, OutEnd};
pub use kinds::LaneKind;
pub use rings::{RingIn, RingLanes, RingOut};
pub use settling::Settled;
pub use showing::{Shown, Shows};
