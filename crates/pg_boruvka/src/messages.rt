//! What the ranks of Borůvka's method send each other: keys of labels, and hooks.

/// The keys of eight labels that follow one another. The key of a label is that of an edge that leaves it: the edge's
/// weight times 8,388,608, and its index.
#[derive(Clone, Copy, Debug, PartialEq, Eq)]
pub struct Piece {
    /// The first of the labels, which are numbers of vertices.
    pub base: u32,
    /// The keys of the labels from `base` to `base + 7`; [`crate::NO_KEY`] for a label without one.
    pub keys: [u64; 8],
}

/// A hook: a label that is joined to another by an edge.
#[derive(Clone, Copy, Debug, PartialEq, Eq)]
pub struct Hook {
    /// The label that hooks.
    pub source: u32,
    /// The label that it hooks to.
    pub target: u32,
    /// The index of the edge in the graph's list of edges, from 0.
    pub edge: u32,
}

/// What ranks send each other in the three rounds of a phase.
#[derive(Clone, Copy, Debug, PartialEq, Eq)]
pub enum Message {
    /// In the first round the least keys of a rank's own arcs, to the rank that reduces these labels; in the second the
    /// least keys of all ranks, to every other rank.
    Piece(Piece),
    /// In the third round a hook, to every other rank.
    Hook(Hook),
}
