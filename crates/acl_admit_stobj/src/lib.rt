//! The event DEFSTOBJ: a concrete stobj is defined, with its functions and its layout.
#![tactic(auto)]

mod admitting;

pub use admitting::admit_stobj;
