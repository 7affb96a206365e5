//! The definition of a stobj as it is written, and its fields with their shapes: read, or refused before a name is made.
#![tactic(auto)]

mod fault;
mod fields;
mod initials;
mod reading;
mod shaped;
mod stobjs;

pub use fault::StobjFault;
pub use reading::{ReadStobj, read_written};
pub use shaped::ShapedField;
