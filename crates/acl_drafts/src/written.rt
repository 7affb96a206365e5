//! A function as it is written.

use acl_base::Word;
use sqlite_items::Items;

/// A function: its name, the list of its formals, the items of its declarations, its body, and whether it is to run.
#[derive(Debug, Drop)]
pub struct WrittenFunction {
    pub name: Word,
    pub formals: Word,
    pub items: Items<Word>,
    pub body: Word,
    pub executable: bool,
}
