//! Graph files and partition files of METIS: which texts are one, the graph or the list of ranks that such a
//! text is of, and the fault of each other text. Source: METIS 5.1 manual, sections 4.1.1 and 4.2.1, in the
//! profile that docs/FORMAT.md gives.
#![tactic(auto)]

mod arcs;
mod ascending;
mod batch_files;
mod batches;
mod content;
mod faults;
mod gathering;
mod graph_files;
mod headers;
pub mod laws;
mod numbers;
mod pairing;
mod parsing;
mod parts_faults;
mod parts_files;
mod pieces;
mod ranges;
mod reading;
mod rows;
mod sorting;

pub use faults::{GraphFault, Kind};
pub use graph_files::{read_graph, read_graph_in_batches, read_graph_on_threads};
pub use parts_faults::{PartsFault, PartsKind};
pub use parts_files::read_parts;

/// The greatest length of a file in bytes.
pub const MAX_FILE_BYTES: u64 = 536_870_912;
