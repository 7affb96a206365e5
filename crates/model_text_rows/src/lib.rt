//! Worked rows: what the definitions give for some inputs, computed.
#![tactic(auto)]

mod texts;

pub use texts::{
    backquotes, bad_tokens, bars, bytes, commas, dots, ends, faults_together, integers, limits,
    lists, printed, quotes, strings, symbols, unknown_packages,
};
