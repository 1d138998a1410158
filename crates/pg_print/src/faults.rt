//! The faults of a run, and the status with which each ends.
ghost use Rattle.std.specs.Prelude.{◌≡◌};
ghost use Rattle.pg_print.specs.FaultLines.{status_of};
ghost use Rattle.pg_print.specs.FaultsFrom.{from_graph, from_parts};
ghost use Rattle.pg_print.specs.declared.faults.Fault.TheVariants.{Memory};

use pg_base::Status;
use pg_metis::{GraphFault, Kind, PartsFault, PartsKind};
use std::alloc::AllocError;

/// Why a run printed no answer.
#[derive(Clone, Copy, Debug, PartialEq, Eq)]
pub enum Fault {
    /// The words are no command line.
    Words,
    /// The graph file has this fault in this line, counted from 1.
    Graph { line: u64, kind: Kind },
    /// The partition file has this fault in this line, counted from 1.
    Parts { line: u64, kind: PartsKind },
    /// The source is no vertex of the graph.
    Source { source: u32 },
    /// A file is missing, or a read of one failed.
    Read,
    /// A write failed.
    Write,
    /// The run is out of memory. No clause says when it comes.
    Memory,
}

impl Fault {
    /// The status that a run with this fault ends with.
    pub fn status(&self) -> Status
        ensures { result ≡ status_of self.now }
    {
        match self {
            Fault::Words => Status::BadWords,
            Fault::Graph { .. } => Status::BadGraph,
            Fault::Parts { .. } => Status::BadParts,
            Fault::Source { .. } => Status::BadSource,
            Fault::Read => Status::ReadFault,
            Fault::Write => Status::WriteFault,
            Fault::Memory => Status::NoMemory,
        }
    }
}

impl From<GraphFault> for Fault {
    ghost from_gives = { λ fault gives. gives ≡ from_graph fault };

    fn from(fault: GraphFault) -> Fault {
        match fault {
            GraphFault::Refused { line, kind } => Fault::Graph { line, kind },
            GraphFault::Failed => Fault::Read,
            GraphFault::OutOfMemory => Fault::Memory,
        }
    }
}

impl From<PartsFault> for Fault {
    ghost from_gives = { λ fault gives. gives ≡ from_parts fault };

    fn from(fault: PartsFault) -> Fault {
        match fault {
            PartsFault::Refused { line, kind } => Fault::Parts { line, kind },
            PartsFault::Failed => Fault::Read,
            PartsFault::OutOfMemory => Fault::Memory,
        }
    }
}

impl From<AllocError> for Fault {
    ghost from_gives = { λ _ fault. fault ≡ Memory };

    fn from(_error: AllocError) -> Fault {
        Fault::Memory
    }
}
