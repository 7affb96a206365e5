//! A type that is written, one level deep.

use acl_base::{SymId, Word};

/// A type with no types in it.
#[derive(Clone, Copy, Debug)]
pub enum Leaf {
    Always,
    Never,
    /// Integers from an end to an end, where there are these.
    Between(Option<i128>, Option<i128>),
    /// What meets this predicate.
    Meets(SymId),
    /// The elements of this list.
    Among(Word),
}

/// How the types of a list are joined: any of them is to be met, or all.
#[derive(Clone, Copy, Debug)]
pub enum Join {
    Either,
    Both,
}

/// What an object is as a type.
#[derive(Clone, Copy, Debug)]
pub enum Shape {
    /// It is none.
    Bad,
    Leaf(Leaf),
    /// What is not of this type.
    Other(Word),
    /// A first type, and a list of more.
    Joined(Join, Word, Word),
}

/// The same, or another object that is the same type.
#[derive(Clone, Copy, Debug)]
pub enum Step {
    Goes(Word),
    Stays(Shape),
}
