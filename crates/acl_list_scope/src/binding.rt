//! What is in scope.

use acl_base::SymId;
use acl_lists::ListId;

/// A variable of an object, and the list of the object: without a number, the empty one.
#[derive(Clone, Copy, Debug)]
pub struct Binding {
    pub variable: SymId,
    pub list: Option<ListId>,
}

/// The bindings of a call that is open, the innermost last.
#[derive(Debug, Drop)]
pub struct Scope {
    pub bindings: Vec<Binding>,
}
