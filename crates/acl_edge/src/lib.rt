//! The outside: where a run's input comes from and where its output goes.
#![tactic(auto)]

mod mem_sink;
mod mem_source;
mod outside;
mod real;
mod writing;

pub use mem_sink::MemSink;
pub use mem_source::MemSource;
pub use outside::{Failed, Sink, Source};
pub use real::{StdSink, StdSource};
pub use writing::write_all;

#[cfg(test)]
mod tests;
