//! The messages between the property maps of two ranks.

/// What the cells of two ranks send each other. Places and slots count from 0, and are those of the rank that gets it.
#[derive(Clone, Copy, Debug, PartialEq, Eq)]
pub enum CellBody {
    /// A value joins the own cell at this place.
    Put { place: u32, value: u64 },
    /// A value replaces the ghost in this slot.
    Refresh { slot: u32, value: u64 },
}
