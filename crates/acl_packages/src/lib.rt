//! The definition of a package, and which package is to be the current one.
#![tactic(auto)]

mod current;
mod defining;
mod fault;
mod named;
mod reading;
mod written;

pub use current::current_package;
pub use defining::define_package;
pub use fault::{CurrentFault, PackageFault};
pub use named::name_and_form;
pub use reading::written_package;
pub use written::WrittenPackage;
