//! New nodes of live objects, by their layouts.
#![tactic(auto)]

mod making;

pub use making::make;
