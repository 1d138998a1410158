//! What the program reads from and writes to: sources of named bytes and sinks of text, each with a count
//! of its faults. Two of them lie in memory and show what they hold; two adapt the system's files and
//! streams, and show nothing of what these hold.
#![tactic(auto)]

mod faults;
mod file_inputs;
mod fronts;
mod inputs;
mod memory_inputs;
mod memory_sink;
mod named_files;
mod sinks;
mod std_sink;
#[cfg(test)]
mod stream_tests;
#[cfg(test)]
mod tests;

pub use file_inputs::FileInputs;
pub use inputs::Inputs;
pub use memory_inputs::MemoryInputs;
pub use memory_sink::MemorySink;
pub use sinks::Sink;
pub use std_sink::StdSink;

/// A read, a write or an opening did not succeed.
#[derive(Clone, Copy, Debug, PartialEq, Eq)]
pub struct Failed;
