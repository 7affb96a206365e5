//! Fields of objects of a world: how each is laid out, and whether an object of a heap is as a field's layout says.
#![tactic(auto)]

mod fields;
mod finding;
mod listing;
mod recognizing;

pub use fields::{LaidOut, laid_out};
pub use recognizing::recognizes_field;
