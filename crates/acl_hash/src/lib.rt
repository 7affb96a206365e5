//! Hash fields: from objects to objects, by keys that are equal exactly where their objects are.
#![tactic(auto)]

mod bytes;
mod compare;
mod entry;
mod field;
mod key;
mod listing;
mod places;
mod sorting;
#[cfg(test)]
mod tests;

pub use entry::Entry;
pub use field::HashField;
pub use key::Key;
pub use sorting::sorted;
