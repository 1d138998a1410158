//! What the words ask for.

use std::alloc::AllocError;

/// What a run computes.
#[derive(Clone, Copy, Debug, PartialEq, Eq)]
pub enum Algorithm {
    /// Least numbers of arcs from the source.
    Bfs,
    /// Least weights from the source.
    Sssp,
    /// The least vertex that a walk joins to each.
    Components,
    /// The least spanning forest.
    Forest,
    /// A colouring.
    Colour,
    /// All of these on a grid that is made, in numbers.
    Grid,
}

/// What the words of a command line mean. Fields that the algorithm doesn't use are empty or 0.
#[derive(Debug, Drop)]
pub struct Plan {
    /// What is computed.
    pub algorithm: Algorithm,
    /// The name of the graph file; empty for a grid.
    pub file: String,
    /// How many ranks divide the graph, from 1 to 32.
    pub ranks: u32,
    /// How many threads drive the ranks, from 1 to 32.
    pub threads: u32,
    /// The name of the partition file; the block distribution where there is none.
    pub parts: Option<String>,
    /// The number of the vertex that distances count from. The graph may have no such vertex.
    pub source: u32,
    /// The width of a bucket of delta-stepping, in units of weight.
    pub delta: u32,
    /// How many messages a lane holds at most, from 1 to 1,024.
    pub capacity: u32,
    /// How many columns the grid has.
    pub width: u32,
    /// How many rows the grid has.
    pub height: u32,
    /// The seed from which the grid's edges and weights are drawn.
    pub seed: u32,
}

/// Why words have no plan.
#[derive(Clone, Copy, Debug, PartialEq, Eq)]
pub enum PlanFault {
    /// The words are no command line.
    BadWords,
    /// The run is out of memory. No clause says when it comes.
    OutOfMemory,
}

impl From<AllocError> for PlanFault {
    ghost use Rattle.std.specs.Prelude.{◌≡◌};
    ghost use Rattle.pg_words.specs.declared.plans.PlanFault.TheVariants.{OutOfMemory};

    ghost from_gives = { λ _ fault. fault ≡ OutOfMemory };

    fn from(_error: AllocError) -> PlanFault {
        PlanFault::OutOfMemory
    }
}

/// Whether an algorithm requires a word, takes it or refuses it.
#[derive(Clone, Copy, Debug, PartialEq, Eq)]
pub enum Need {
    /// The word has to be there.
    Required,
    /// The word may be there.
    Optional,
    /// The word may not be there.
    Refused,
}

/// Who does the work.
#[derive(Clone, Copy, Debug, PartialEq, Eq)]
pub struct Crew {
    pub ranks: u32,
    pub threads: u32,
    pub capacity: u32,
}

/// From where distances count, and by which buckets.
#[derive(Clone, Copy, Debug, PartialEq, Eq)]
pub struct Search {
    pub source: u32,
    pub delta: u32,
}

/// The grid that is made.
#[derive(Clone, Copy, Debug, PartialEq, Eq)]
pub struct Size {
    pub width: u32,
    pub height: u32,
    pub seed: u32,
}

/// The numbers of a plan.
#[derive(Clone, Copy, Debug, PartialEq, Eq)]
pub struct Numbers {
    pub crew: Crew,
    pub search: Search,
    pub size: Size,
}
