//! Expansion: the core form of all places.
#![tactic(auto)]

mod growing;
mod node;
mod placed;
mod placing;
mod ready;

pub use growing::{expand, grow};
pub use node::core_of_node;
pub use placed::Placed;
pub use placing::part_found;
pub use ready::form_fault;
