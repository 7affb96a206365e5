//! The functions that a concrete stobj comes with.
#![tactic(auto)]

mod building;
mod fields;
mod functions;
mod tasks;
#[cfg(test)]
mod tests;

pub use functions::generated_functions;
