//! Expansion: what stands at the place of a form.
#![tactic(auto)]

mod entering;
mod looked;
mod looking;
mod progress;
mod settling;
mod stepping;

pub use entering::{entered, evaluated};
pub use looked::Looked;
pub use looking::{head_fault, look_at};
pub use progress::{Origin, Progress, Refused, no_stop};
pub use settling::{again, at_stop, built};
pub use stepping::{rest_found, settle, step};
