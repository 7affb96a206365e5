//! Whole books, run by the top call over ends in memory.
#![tactic(auto)]

#[cfg(test)]
mod tests;
