//! The items of two programs that share lanes.
/// An item of one of the two programs of a pair.
#[derive(Clone, Copy, Debug, PartialEq, Eq)]
pub enum Of2<A, B> {
    /// An item of the first.
    First(A),
    /// An item of the second.
    Second(B),
}
