//! Functions as they are written: formals, declarations before a body, and names that are in use.
#![tactic(auto)]

mod body;
mod declared_types;
mod formals;
mod forms;
mod names;
mod plain;
mod reading;
mod said;
mod shape;
mod table;
mod typed;
mod whole;
mod words;
mod xargs;

pub use body::items_and_body;
pub use declared_types::declared_test;
pub use formals::{FormalFault, formals_fault, read_formals};
pub use names::name_in_use;
pub use said::{Declared, GuardItem};
pub use table::repeated;
pub use whole::declarations;
pub use xargs::{symbol, symbols_of};
