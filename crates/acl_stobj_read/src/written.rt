//! The definition of a stobj as it is written.

use acl_base::{SymId, Word};
use sqlite_items::Items;

/// A field: its name, its type as it is written, its initial value where it has one, and whether it may be resized.
#[derive(Clone, Copy, Debug)]
pub struct WrittenField {
    pub name: SymId,
    pub spec: Word,
    pub initial: Option<Word>,
    pub resizable: bool,
}

/// A stobj: its name, its fields, names that were made with those that stand for them, and the stobj that it is to be
/// congruent to.
#[derive(Debug, Drop)]
pub struct WrittenStobj {
    pub name: Word,
    pub fields: Items<WrittenField>,
    pub renaming: Items<(SymId, SymId)>,
    pub congruent_to: Option<SymId>,
}
