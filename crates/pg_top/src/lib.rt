//! The program as one call: words in, a graph read, its answer written, and a status.
#![tactic(auto)]

mod agendas;
mod answers;
mod colours;
mod columns;
mod commands;
mod crews;
mod forests;
mod gridding;
mod inputs;
pub mod laws;
mod pairs;
mod relaxing;
mod solving;
mod tallying;
mod weights;
mod works;

pub use commands::command;
pub use pg_words::{Algorithm, Plan, PlanFault, plan};
pub use works::{Answer, Work};
