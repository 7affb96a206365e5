//! Turns of the calls of exports of abstract objects.
#![tactic(auto)]

mod allowing;
mod calling;
mod closing;
mod exports;
mod steps;

pub use allowing::resume_allowing;
pub use calling::{call_creator, call_recognizer};
pub use closing::{close_allowing, close_exporting};
