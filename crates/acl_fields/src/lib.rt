//! The fields of live objects, as they lie in memory, and the nodes that have them.
#![tactic(auto)]

mod change;
mod counting;
mod node;
mod notes;
mod slot;

pub use change::Change;
pub use node::Node;
pub use notes::OldPart;
pub use slot::{Array, Slot, number};
