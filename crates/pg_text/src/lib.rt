//! Byte texts that are read line by line: their lines within a limit, the words of a line, and the numbers
//! that words are.
#![tactic(auto)]

mod faults;
pub mod laws;
mod lines;
mod readers;
mod runs;
mod scanning;
#[cfg(test)]
mod tests;

pub use faults::TextFault;
pub use lines::{Line, Lines};
pub use readers::LineReader;
pub use runs::Words;
pub use scanning::{number, words};
