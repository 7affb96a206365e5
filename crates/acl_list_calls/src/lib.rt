//! What the functions that concrete objects come with do on lists of a table.
#![tactic(auto)]

mod arguments;
mod calls;
mod done;
mod hashing;
mod reading;
mod roles;
mod writing;

pub use arguments::argument;
pub use calls::done_by;
pub use done::{Done, Place};
pub use reading::{access, measure};
pub use writing::{resize, update};
