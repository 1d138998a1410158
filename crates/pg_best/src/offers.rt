//! The message of a relaxation.
use pg_base::Vertex;
use pg_label::Value;

/// A value offered to a vertex, the end of an arc from a vertex of another rank.
#[derive(Clone, Copy, Debug, PartialEq, Eq)]
pub struct Offer {
    /// The vertex.
    pub to: Vertex,
    /// Its place at its owner, from 0.
    pub place: u32,
    /// The value that it is offered.
    pub value: Value,
}
