//! Whether an object meets a type that is written as an object.
#![tactic(auto)]

mod leaves;
mod meeting;
#[cfg(test)]
mod tests;
mod words;

pub use meeting::meets;
