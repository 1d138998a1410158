//! What a property map sends next, and to which rank.

use crate::CellBody;
use pg_base::RankNo;

/// What cells send next.
#[derive(Clone, Copy, Debug, PartialEq, Eq)]
pub enum NextSend {
    /// What is pending for the ghost of a slot goes to its owner.
    PutOf { slot: u32 },
    /// The pending refresh of an entry is sent.
    RefreshOf { entry: usize },
}

/// A body on its way to a rank.
#[derive(Clone, Copy, Debug, PartialEq, Eq)]
pub struct Outgoing {
    pub to: RankNo,
    pub body: CellBody,
}
