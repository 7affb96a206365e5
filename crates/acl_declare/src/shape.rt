//! A type of a declaration, one level deep.

use acl_base::{SymId, Word};
use acl_types::Join;

/// What an object is as a type of a declaration.
#[derive(Clone, Copy, Debug)]
pub enum TestShape {
    /// It is none.
    Bad,
    /// A type as fields have it.
    Plain(Word),
    /// What meets this predicate.
    Satisfies(SymId),
    /// A list of no types.
    Empty(Join),
    /// What is not of this type.
    Other(Word),
    /// A first type, and a list of more.
    Joined(Join, Word, Word),
}

/// The same, or another object that is the same type.
#[derive(Clone, Copy, Debug)]
pub enum TestStep {
    Goes(Word),
    Stays(TestShape),
}
