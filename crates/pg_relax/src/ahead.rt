//! The place that is being relaxed.

use pg_agenda::Share;
use pg_base::RankNo;
use pg_best::Offer;

/// The arcs of one place that are still to be relaxed: those of the share from the `next` one on, counted from 0.
#[derive(Clone, Copy, Debug, PartialEq, Eq)]
pub(crate) struct Ahead {
    pub(crate) place: u32,
    pub(crate) share: Share,
    pub(crate) next: usize,
}

/// How far the arcs of a place were passed.
#[derive(Clone, Copy, Debug, PartialEq, Eq)]
pub(crate) enum Passed {
    /// No arc is left ahead.
    All,
    /// The value of this arc's end has to be offered to another rank.
    UpTo {
        next: usize,
        to: RankNo,
        offer: Offer,
    },
}
