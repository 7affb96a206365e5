//! The values of a macro's formals: required ones, optional ones with their defaults, the rest, and keys.
#![tactic(auto)]

mod keys;
mod taking;
mod values;

pub use values::macro_values;
