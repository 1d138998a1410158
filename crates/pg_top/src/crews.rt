//! What a plan asks of the ranks that run its algorithm.
ghost use Rattle.std.specs.Prelude.{◌≤◌};

use pg_base::Ranks;

/// How many ranks and threads run a plan's algorithm, and how many messages a lane between two ranks holds, from 1 to 1024.
#[derive(Clone, Copy, Debug)]
pub(crate) struct Crew {
    pub(crate) ranks: Ranks,
    pub(crate) threads: u32,
    pub(crate) capacity: u32,
    ghost a_thread: { 1 ≤ threads },
    ghost a_message: { 1 ≤ capacity },
    ghost few_messages: { capacity ≤ 1024 },
}
