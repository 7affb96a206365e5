//! The turns of a machine at local objects, at functions that objects come with, and at the children of a `STOBJ-LET`.
#![tactic(auto)]

mod borrow;
mod common;
mod generated;
mod lend;
mod local;
mod put;
mod reading;
mod twins;

pub use borrow::close_borrowing;
pub use generated::call_generated;
pub use lend::resume_borrowing;
pub use local::{begin_local, close_local, resume_local};
pub use put::{close_lent, resume_producing, resume_putting};
