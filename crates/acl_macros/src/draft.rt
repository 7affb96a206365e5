//! A macro before it is expanded.

use acl_base::{SymId, Word};
use acl_terms::MacroFormals;

/// A macro whose name, formals and declarations were read, and its body as it is written.
#[derive(Debug, Drop)]
pub struct MacroDraft {
    pub name: SymId,
    pub formals: MacroFormals,
    pub body: Word,
}
