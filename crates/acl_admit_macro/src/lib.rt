//! The event DEFMACRO: from what stands behind its head to a world with the macro and its term, or the first refusal.
#![tactic(auto)]

mod admitting;
mod entering;
mod expanded;
mod expanding;
mod fault;
mod ready;
#[cfg(test)]
mod tests;

pub use admitting::admit_macro;
pub use entering::enter_macro;
pub use expanded::ExpandedMacro;
pub use expanding::expand_macro;
pub use fault::MacroFault;
pub use ready::is_ready;
