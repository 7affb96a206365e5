//! The guard of a definition as a core form.
#![tactic(auto)]

mod guard;
mod item;
#[cfg(test)]
mod tests;

pub use guard::expand_guard;
pub use item::grow_item;
