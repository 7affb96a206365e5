//! The descriptor of a stobj: its definition read, its names made, and its congruence tested.
#![tactic(auto)]

mod congruence;
mod describing;
mod fields;
mod in_use;
mod making;
mod reading;
mod refusing;
mod renames;
mod texts;

pub use reading::read_descriptor;
