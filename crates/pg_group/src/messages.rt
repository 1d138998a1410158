//! What ranks send each other: items, and marks with votes.
/// What a rank says at the end of a round. Each program gives the four numbers its own meaning.
#[derive(Clone, Copy, Debug, PartialEq, Eq)]
pub struct Vote {
    pub a: u64,
    pub b: u64,
    pub c: u64,
    pub d: u64,
}

/// What goes down a lane: an item of the program, or the mark that ends the sender's round.
#[derive(Clone, Copy, Debug, PartialEq, Eq)]
pub enum Body<B> {
    /// An item of the program.
    Item(B),
    /// The mark that ends a round, with the sender's vote.
    Mark(Vote),
}

/// A body with its place among all bodies sent down its lane, counted from 0 and modulo 2^64.
#[derive(Clone, Copy, Debug, PartialEq, Eq)]
pub struct Envelope<B> {
    pub number: u64,
    pub body: Body<B>,
}

/// What a poll of a lane finds.
#[derive(Clone, Copy, Debug, PartialEq, Eq)]
pub enum Polled<B> {
    /// An item of this round.
    Item(B),
    /// The mark that ends this round on this lane.
    Mark(Vote),
    /// Nothing: the lane was empty.
    Empty,
    /// Nothing: the mark of this round was taken before.
    Closed,
}
