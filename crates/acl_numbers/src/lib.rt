//! The primitives on integers: each computes what its definition says of the objects that the words stand for.
#![tactic(auto)]

mod guards;
mod integers;
mod kinds;
mod narrow;
mod numbers;
mod stops;
#[cfg(test)]
mod tests;

pub use guards::{are_integers, arithmetic_guard};
pub use kinds::{below, is_integer, is_natural, is_positive, is_zero, natural};
pub use numbers::{computed, number};
pub use stops::{PrimStop, answer};
