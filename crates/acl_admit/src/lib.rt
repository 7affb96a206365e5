//! Functions that an expansion made are admitted where they are small enough.
#![tactic(auto)]

mod admitting;
mod ready;
#[cfg(test)]
mod tests;

pub use admitting::admit_functions;
pub use ready::{are_ready, is_ready};
