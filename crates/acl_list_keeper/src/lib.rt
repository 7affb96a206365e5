//! The keeper of lists: objects in scope as lists in a table.
#![tactic(auto)]

mod keeper;
mod ready;

pub use keeper::ListKeeper;
pub use ready::{Change, Ready};
