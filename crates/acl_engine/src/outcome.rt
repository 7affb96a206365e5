//! How an evaluation ended.

use acl_base::SymId;
use acl_terms::{Shown, Stop};

/// How an evaluation ended.
#[derive(Drop)]
pub struct Outcome {
    /// Why it stopped, where it did.
    pub stop: Option<Stop>,
    /// What it gave, where it did not stop.
    pub values: Vec<Shown>,
    /// The calls counted so far, those from before it among them.
    pub calls: u64,
    /// Its calls that no export made.
    pub outer: u64,
    /// The outermost export that a stop came inside.
    pub inside: Option<SymId>,
    /// The number of the outer call that a stop came at or inside, from 1 on.
    pub cut: u64,
}
