//! Parts of the definition of a stobj: names that may be given, keys, renamings, and the shapes that types give fields.
#![tactic(auto)]

mod keys;
mod lists;
mod names;
mod nesting;
mod reading;
mod shapes;
mod words;
mod world;
mod written;

pub use keys::{Key, are_field_keys, are_stobj_keys, key_value};
pub use lists::symbol;
pub use names::{bad_name, may_be_defined};
pub use reading::{is_executable, old_stobj, renaming_of};
pub use shapes::shape_of;
pub use world::{constant_of, descriptor_of};
pub use written::{WrittenField, WrittenStobj};
