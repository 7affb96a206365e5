//! A concrete stobj in a world: its descriptor, its layout, and the functions that it comes with.
#![tactic(auto)]

mod adding;
mod class;
mod entering;
mod laying;
#[cfg(test)]
mod tests;

pub use entering::enter_stobj;
