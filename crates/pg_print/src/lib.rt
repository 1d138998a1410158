//! What the program writes: columns of answers, forests, summaries, and the line that reports a fault. Each line is one
//! call of the sink, and no call allocates.
#![tactic(auto)]

mod columns;
mod faults;
mod forests;
pub mod laws;
mod lines;
mod reports;
mod summaries;

pub use columns::{Column, print_column};
pub use faults::Fault;
pub use forests::print_forest;
pub use reports::print_fault;
pub use summaries::{Summary, Tally, print_summary};

#[cfg(test)]
mod tests;
