//! Objects in scope kept as lists in a table.
#![tactic(auto)]

mod binding;
mod lending;
mod scope;
mod scoped;

pub use binding::{Binding, Scope};
pub use scope::first_object;
pub use scoped::ScopedLists;
