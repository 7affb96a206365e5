//! A macro before it enters a world.

use acl_base::SymId;
use acl_terms::{Core, MacroFormals};

/// A macro whose name, formals and declarations were read, and the core form of its body.
#[derive(Debug, Drop)]
pub struct ExpandedMacro {
    pub name: SymId,
    pub formals: MacroFormals,
    pub body: Core,
}
