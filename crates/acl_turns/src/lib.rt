//! One turn of a machine, and turns until it is over.
#![tactic(auto)]

mod beginning;
mod calling;
mod closing;
mod laws;
mod resuming;
mod running;
mod turning;

pub use laws::{may_run, runs_are_turns};
pub use running::run;
pub use turning::turn;
