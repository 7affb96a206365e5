//! The machine that evaluates terms, over a keeper of objects.
#![tactic(auto)]

mod actuals;
mod begin;
mod calls;
mod close;
mod frame;
mod laws;
mod lending;
mod machine;
mod resume;
mod stack;
mod values;
pub mod words;

pub use frame::{Borrowed, Control, Frame, Goal, Halt, Inside, Step, Turn};
pub use laws::known_constants_are_whole;
pub use machine::{Machine, whole};
pub use resume::{is_false, slot_in};
pub use stack::Stack;
pub use values::{Loans, Names, Values};
