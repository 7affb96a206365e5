//! What is seen at a place.

use acl_base::{SymId, Word};
use acl_layers::{Found, Row};
use acl_terms::{ExpandFault, Macro};

/// What stands at a place, a fault, or a use that counts.
#[derive(Drop)]
pub enum Looked<'a> {
    Stands(Found),
    Bad(ExpandFault),
    /// A built-in macro: its head, its row, and what stands behind the head.
    Use(SymId, Row, Word),
    /// A macro of the world: its head, and what stands behind the head.
    UserUse(SymId, &'a Macro, Word),
}
