//! Groups of ranks: each rank has a port, with one lane to and one lane from each other rank. Messages go
//! down a lane in rounds, and a mark with the sender's vote ends a round on its lane.
#![tactic(auto)]

mod closing;
mod groups;
mod inlanes;
mod mailboxes;
mod messages;
mod outboxes;
mod outlanes;
mod programs;
mod rolls;
mod sockets;

pub use closing::close_ports;
pub use groups::ports;
pub use mailboxes::Mailbox;
pub use messages::{Body, Envelope, Polled, Vote};
pub use outboxes::Outbox;
pub use programs::{Narrow, Next, Program, Worked};
pub use rolls::Roll;
pub use sockets::Port;
