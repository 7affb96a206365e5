//! Rows of expansion: a form as text, and its core form or its fault as text.
#![tactic(auto)]

mod leaf;
mod reading;
mod rows;
mod showing;
#[cfg(test)]
mod tests;
mod world;

pub use leaf::LeafEngine;
pub use reading::read;
pub use rows::{Expanded, expansion_of, uses};
pub use showing::{room, shown_core, shown_fault};
pub use world::row_world;
