//! The definition of a constant: its draft, and its entry once its form was evaluated.
#![tactic(auto)]

mod draft;
mod entering;
mod naming;
mod reading;

pub use draft::{ConstantDraft, EntryFault};
pub use entering::enter_constant;
pub use reading::read_constant;
