//! How the fields of an object lie in memory.

use crate::{LayoutId, Word};

/// How an element of a field is kept. A field of integers alone has the first of `Byte`, `I32` and `I64` whose range
/// holds every integer that its type admits; every other field is `General`.
#[derive(Clone, Copy, Debug, PartialEq, Eq)]
pub enum Kind {
    /// 0 to 255.
    Byte,
    I32,
    I64,
    /// Any object.
    General,
}

/// How the keys of a hash field are compared.
#[derive(Clone, Copy, Debug, PartialEq, Eq)]
pub enum Test {
    Eq,
    Eql,
    Equal,
}

/// A field of an object.
#[derive(Clone, Copy, Debug, PartialEq, Eq)]
pub enum Field {
    /// One element, and its initial value.
    Scalar(Kind, Word),
    /// An array: its kind, the initial value of an element, its first length, and whether it may be resized.
    Array(Kind, Word, u32, bool),
    /// A hash field, which begins empty.
    Hash(Test),
    /// An object of its own.
    Child(LayoutId),
    /// An array of objects, and its length.
    Children(LayoutId, u32),
}

/// The fields of an object, in the order of its definition.
#[derive(Debug, Drop)]
pub struct Layout {
    pub fields: Vec<Field>,
}
