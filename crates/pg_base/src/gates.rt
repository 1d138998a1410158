//! The gate: a call at the start of each turn of a rank, in which a test can hold the rank.

use crate::RankNo;

/// What a rank passes at the start of each turn. A test that implements it can hold a rank there.
pub trait Gate: Sync {
    /// Called when `rank` is about to begin its turn number `turn`, counted from 1. The turn begins once this returns.
    fn pass(&self, rank: RankNo, turn: u64);
}

/// The gate that holds nobody.
#[derive(Clone, Copy, Debug)]
pub struct OpenGate;

impl Gate for OpenGate {
    /// Returns at once.
    fn pass(&self, _rank: RankNo, _turn: u64) {}
}
