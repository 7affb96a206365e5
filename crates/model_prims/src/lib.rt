//! The primitives: their table, and the guard, value and stops of each. Definitions, and laws about them.
#![tactic(auto)]

mod laws;
mod prim;

pub use laws::{
    division_divides, equality_is_equality, large_is_told_at_once, logic_is_bitwise, shifts_scale,
    values_are_given, values_are_known, values_follow_the_logic,
};
pub use prim::{Arithmetic, Listing, Naming, Prim, Recognizer, Relation};
