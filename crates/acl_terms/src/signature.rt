//! Kinds of values, signatures and names in scope.

use acl_base::SymId;
use sqlite_items::Items;

/// An output, or the kind of a name: ordinary, or the object of this name.
#[derive(Clone, Copy, Debug, PartialEq, Eq)]
pub enum Out {
    Ordinary,
    Object(SymId),
}

/// What a function takes and what it gives.
#[derive(Debug, Drop)]
pub struct Signature {
    pub ins: Items<Out>,
    pub outs: Items<Out>,
}

/// A name in scope.
#[derive(Clone, Copy, Debug, PartialEq, Eq)]
pub struct Entry {
    pub name: SymId,
    pub kind: Out,
}
