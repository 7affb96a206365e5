//! The evaluation of a term by the machine, stobjs as lists: begun, turned to its end, and its outcome read.
#![tactic(auto)]

mod beginning;
mod ending;
mod evaluating;

pub use beginning::{begun, values_of};
pub use ending::{outcome_of, refused};
pub use evaluating::evaluate;
