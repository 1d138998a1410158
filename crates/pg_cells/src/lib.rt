//! Property maps over the parts of a divided graph: a value for each vertex that a rank knows, its own ones and its
//! ghosts. After a synchronize the ghosts are as the map's consistency flags say.
#![tactic(auto)]

mod bodies;
mod cells;
mod flags;
mod indexed;
pub mod laws;
mod maps;
mod outgoing;
mod pending_puts;
mod phases;
mod places;
mod refreshes;
mod resolvers;
mod sending;
mod slots;

pub use bodies::CellBody;
pub use cells::Cells;
pub use flags::{BadFlags, Flags};
pub use phases::Phase;
pub use resolvers::{GreatestWins, LastWins, LeastWins, Resolver, Semilattice};
