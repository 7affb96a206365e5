//! Maps from objects to objects, which own what they hold.
#![tactic(auto)]

mod counting;
mod entry;
mod held;
mod listing;
mod map;
mod places;

pub use entry::OwnedEntry;
pub use held::HeldPlace;
pub use map::ObjectMap;
