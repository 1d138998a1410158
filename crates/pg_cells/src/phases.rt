//! The phases of a property map.

/// Whether values may be put, or how far a synchronize has come.
#[derive(Clone, Copy, Debug, PartialEq, Eq)]
pub enum Phase {
    /// Values may be put.
    Filling,
    /// This rank has closed: a synchronize has begun.
    Closing,
    /// The own cells go to their holders.
    Refreshing,
}
