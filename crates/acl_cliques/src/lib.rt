//! Functions that are admitted together: their signatures, the rules, their terms, and their entry into a world.
#![tactic(auto)]

mod defining;
mod entering;
mod prepared;
mod signing;
mod translating;

pub use entering::enter_functions;
