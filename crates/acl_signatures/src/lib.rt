//! Functions that are admitted together: their signatures, and how they stand in a world before these are known and with
//! them.
#![tactic(auto)]

mod entries;
mod rounds;
mod running;

pub use entries::{entries_before, entries_signed, signature_by};
pub use running::signatures;
