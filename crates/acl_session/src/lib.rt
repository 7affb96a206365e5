//! A session: it reads a book, runs its commands and writes their lines.
#![tactic(auto)]

mod answering;
mod books;
mod reading;
mod reading_back;
mod running;
mod totals;

pub use reading_back::reads_back;
pub use running::run;
