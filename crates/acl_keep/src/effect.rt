//! What is lent, and what a generated function answers.

use acl_base::{SymId, Word};
use acl_terms::Shown;

/// A child that a `STOBJ-LET` binds.
#[derive(Clone, Copy, Debug)]
pub struct Loan {
    /// The variable of the child.
    pub child: SymId,
    /// The variable of the parent.
    pub parent: SymId,
    /// The field of the parent.
    pub field: u32,
    /// The index in an array of children.
    pub index: Option<Word>,
}

/// What comes of a call of a function that a concrete object comes with.
#[derive(Clone, Copy, Debug)]
pub enum Effect {
    /// Its guard is not met.
    Refuses,
    /// What it gives: an ordinary value, or its object where it wrote.
    Gives(Shown),
    /// Two values: that of a key, and whether it is bound.
    GivesBoth(Shown, Shown),
}
