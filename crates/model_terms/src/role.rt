//! What the functions of a stobj do.

/// What a function that a concrete stobj comes with does.
#[derive(Clone, Copy, Debug, PartialEq, Eq)]
pub enum Role {
    Recognizer,
    Creator,
    FieldRecognizer,
    Access,
    Update,
    Length,
    Resize,
    HashGet,
    HashBoundp,
    /// The value of a key, and whether it is bound.
    HashGetBound,
    HashPut,
    HashRem,
    HashCount,
    HashClear,
}

/// What a function of an abstract stobj does.
#[derive(Clone, Copy, Debug, PartialEq, Eq)]
pub enum AbstractRole {
    Recognizer,
    Creator,
    Export,
}
