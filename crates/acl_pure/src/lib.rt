//! The engine of lists: what evaluates the bodies of macros for expansion.
#![tactic(auto)]

mod alone;
mod engine;

pub use engine::PureEngine;
