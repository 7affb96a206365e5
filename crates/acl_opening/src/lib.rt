//! The world that a session begins with: the primitives, and two constants.
#![tactic(auto)]

mod opening;
mod symbols;
mod table;
#[cfg(test)]
mod tests;

pub use opening::opening_world;
