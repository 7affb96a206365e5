//! Live objects by the numbers of their nodes.
#![tactic(auto)]

mod counting;
mod laws;
mod notes;
mod store;
mod tables;

pub use laws::{layouts_tell, nodes_stand, writes_are_updates};
pub use store::Store;
