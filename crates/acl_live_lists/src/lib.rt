//! Live objects as lists: the evaluation of a form over them, and how one begins to be live.
#![tactic(auto)]

mod creating;
mod evaluating;

pub use creating::create;
pub use evaluating::evaluate_live;
