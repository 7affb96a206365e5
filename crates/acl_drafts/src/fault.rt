//! Why the definition of functions is refused before they are expanded.

use acl_base::{SymId, Word};

/// The first refusal: of shapes, then of names, then of formals, then of declarations, each step for all functions before
/// the next.
#[derive(Clone, Copy, Debug)]
pub enum DraftFault {
    BadShape,
    BadName(Word),
    NameInUse(SymId),
    DuplicateFormal(SymId),
    /// A declaration of this function.
    BadDeclare(SymId),
    /// Memory was refused.
    Memory,
}
