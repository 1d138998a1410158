//! How a run of the program ended, and the exit status of the process.

ghost use Rattle.std.specs.Prelude.{◌≡◌};
ghost use Rattle.pg_base.specs.Outcome.{status_number};

/// Out of memory. No clause says when it comes.
#[derive(Clone, Copy, Debug, PartialEq, Eq)]
pub struct OutOfMemory;

/// How a run of the program ended.
#[derive(Clone, Copy, Debug, PartialEq, Eq)]
pub enum Status {
    /// The answer was written.
    Ok,
    /// The words of the command line have a fault.
    BadWords,
    /// The graph file has a fault.
    BadGraph,
    /// The partition file has a fault.
    BadParts,
    /// A file is missing, or a read failed.
    ReadFault,
    /// A write failed.
    WriteFault,
    /// The run was out of memory. No clause says when it comes.
    NoMemory,
    /// The source is no vertex of the graph.
    BadSource,
}

impl Status {
    /// The exit status of the process: 0, 2, 3, 4, 5, 6, 7 and 8, in the order of the variants.
    pub fn number(&self) -> u8
        ensures { result ≡ status_number self.now }
    {
        match self {
            Status::Ok => 0,
            Status::BadWords => 2,
            Status::BadGraph => 3,
            Status::BadParts => 4,
            Status::ReadFault => 5,
            Status::WriteFault => 6,
            Status::NoMemory => 7,
            Status::BadSource => 8,
        }
    }
}
