//! A function before it is expanded.

use acl_base::{SymId, Word};
use acl_declare::Declared;
use sqlite_items::Items;

/// A function whose name, formals and declarations were read: what its guard asks, and its body as it is written.
#[derive(Debug, Drop)]
pub struct Draft {
    pub name: SymId,
    pub formals: Items<SymId>,
    pub declared: Declared,
    pub body: Word,
    pub executable: bool,
}
