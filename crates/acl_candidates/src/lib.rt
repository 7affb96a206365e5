//! Functions between their drafts and their admission: their names enter the world, and their guards and bodies are expanded.
#![tactic(auto)]

mod candidates;
mod expanding;
mod naming;
mod reading;

pub use candidates::Candidates;
pub use expanding::{expand_draft, expand_drafts};
pub use naming::enter_names;
pub use reading::read_functions;
