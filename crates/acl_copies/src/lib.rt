//! Copies of core forms.
#![tactic(auto)]

mod copying;
#[cfg(test)]
mod tests;

pub use copying::copy_core;
