//! Core forms, worlds, and the rules that keep stobjs single-threaded: the definitions.
#![tactic(auto)]

mod role;
mod rule;

pub use role::{AbstractRole, Role};
pub use rule::{Mode, Rule};
