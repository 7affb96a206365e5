//! A macro as it is written.

use acl_base::Word;
use sqlite_items::Items;

/// A formal that may be left out, what it is then, and the formal that says whether it was there.
#[derive(Clone, Copy, Debug)]
pub struct WrittenOptional {
    pub name: Word,
    pub default: Word,
    pub supplied: Option<Word>,
}

/// Formals by their marks.
#[derive(Debug, Drop)]
pub struct WrittenFormals {
    pub required: Items<Word>,
    pub optional: Items<WrittenOptional>,
    pub rest: Option<Word>,
    /// Those behind `&KEY`, where it stands.
    pub keys: Option<Items<WrittenOptional>>,
}

/// A macro: its name, its formals, the items of its declarations, and its body.
#[derive(Debug, Drop)]
pub struct WrittenMacro {
    pub name: Word,
    pub formals: WrittenFormals,
    pub items: Items<Word>,
    pub body: Word,
}
