//! Arcs, ghosts and holders: what the parts of a divided graph consist of.

use pg_base::{RankNo, Vertex};

/// One direction of an edge, as it is kept at the rank that owns the vertex from which it leads.
#[derive(Clone, Copy, Debug, PartialEq, Eq)]
pub struct Arc {
    /// The vertex that the arc leads to.
    pub to: Vertex,
    /// The rank that owns `to`.
    pub home: RankNo,
    /// The place of `to` among the vertices of its owner, from 0.
    pub place: u32,
    /// The weight of the edge.
    pub w: u32,
    /// The index of the edge in the graph's list of edges, from 0.
    pub edge: u32,
}

/// A vertex of another rank that an own vertex has an arc to.
#[derive(Clone, Copy, Debug, PartialEq, Eq)]
pub struct Ghost {
    /// The vertex.
    pub vertex: Vertex,
    /// The rank that owns it.
    pub home: RankNo,
    /// Its place among the vertices of its owner, from 0.
    pub place: u32,
}

/// A rank that holds an own vertex as a ghost.
#[derive(Clone, Copy, Debug, PartialEq, Eq)]
pub struct Holder {
    /// The rank.
    pub rank: RankNo,
    /// The index of the vertex in that rank's list of ghosts, from 0.
    pub slot: u32,
}
