//! What objects are made of.

use acl_base::{SymId, Test, Word};
use sqlite_items::Items;

/// What a field holds.
#[derive(Clone, Copy, Debug)]
pub enum Shape {
    /// One element: its type as it was written, and its initial value.
    Scalar {
        spec: Word,
        initial: Word,
    },
    /// The type and the initial value of each element, the first length, and whether it may be resized.
    Array {
        spec: Word,
        initial: Word,
        len: u32,
        resizable: bool,
    },
    Hash(Test),
    /// An object, congruent to this one.
    Child(SymId),
    /// An array of objects, each congruent to this one, and its length.
    Children {
        stobj: SymId,
        len: u32,
    },
}

/// A field of an object.
#[derive(Debug, Drop)]
pub struct FieldDescriptor {
    pub name: SymId,
    pub shape: Shape,
    /// The names of its functions after renaming, its recognizer first.
    pub made: Items<SymId>,
}

/// A concrete object.
#[derive(Debug, Drop)]
pub struct Descriptor {
    pub name: SymId,
    pub recognizer: SymId,
    pub creator: SymId,
    pub fields: Items<FieldDescriptor>,
    pub congruent_to: Option<SymId>,
}

/// A function of an abstract object: its own name, and those of its two meanings.
#[derive(Clone, Copy, Debug)]
pub struct AbsFunction {
    pub name: SymId,
    pub logic: SymId,
    pub exec: SymId,
}

/// An abstract object.
#[derive(Debug, Drop)]
pub struct AbsDescriptor {
    pub name: SymId,
    /// The concrete object that it is kept in.
    pub foundation: SymId,
    pub corr: SymId,
    pub recognizer: AbsFunction,
    pub creator: AbsFunction,
    pub exports: Items<AbsFunction>,
}
