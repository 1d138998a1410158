//! What a run leaves: its status, its final programs and its lanes.
use pg_agenda::{Buckets, Levels};
use pg_base::Status;
use pg_boruvka::Dense;
use pg_colour::Colouring;
use pg_label::{Hops, Root, Weight};
use pg_relax::Relax;
use pg_run::Finished;
use pg_triggers::Pair;

/// What a run leaves beside its texts: the final programs of its ranks, by rank from 0, and the settled lanes between
/// them, ascending in (sender, receiver).
#[derive(Drop)]
pub enum Work {
    /// No algorithm ran, or none to its end.
    None,
    /// Those of a breadth-first search.
    Hops(Finished<Relax<Hops, Levels>>),
    /// Those of least weights, by delta-stepping.
    Weights(Finished<Relax<Weight, Buckets>>),
    /// Those of components.
    Roots(Finished<Relax<Root, Levels>>),
    /// Those of a least spanning forest.
    Forest(Finished<Dense>),
    /// Those of a colouring.
    Colours(Finished<Colouring>),
    /// Those of all of them on a grid.
    Grid {
        /// Of a breadth-first search and of components, in one run.
        both: Finished<Pair<Relax<Hops, Levels>, Relax<Root, Levels>>>,
        /// Of least weights, by delta-stepping.
        weights: Finished<Relax<Weight, Buckets>>,
        /// Of a least spanning forest.
        forest: Finished<Dense>,
        /// Of a colouring.
        colours: Finished<Colouring>,
    },
}

/// How a run ended, and what it leaves.
#[derive(Drop)]
pub struct Answer {
    /// `Ok`, or the first fault that was met.
    pub status: Status,
    /// `Work::None` where the algorithm didn't run to its end.
    pub work: Work,
}
