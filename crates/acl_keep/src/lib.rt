//! How the objects in scope are kept while a machine runs: the trait that a machine is generic over.
#![tactic(auto)]

mod effect;
mod keeper;
mod putting;

pub use effect::{Effect, Loan};
pub use keeper::Keeper;
pub use putting::put_all;
