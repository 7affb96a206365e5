//! Arrays of plain values in one block of memory, seen as lists.
#![tactic(auto)]

mod array;
mod block;
mod filling;
#[cfg(test)]
mod tests;

pub use array::RawArray;
