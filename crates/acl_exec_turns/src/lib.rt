//! Turns of the calls of exports of abstract objects, and of the functions that do their work.
#![tactic(auto)]

mod calling;
mod exporting;
mod exports;
mod function;
mod generated;
mod primitive;
mod steps;
mod stopping;

pub use calling::call_export;
pub use exporting::resume_exporting;
