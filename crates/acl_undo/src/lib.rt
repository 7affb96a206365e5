//! A journal of old parts, by which a state is rolled back without memory.
#![tactic(auto)]

mod journal;
#[cfg(test)]
mod tests;
mod undo;

pub use journal::Journal;
pub use undo::Undo;
