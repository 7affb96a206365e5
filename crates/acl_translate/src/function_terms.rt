//! What a function becomes in the table.

use acl_base::TermId;

/// The terms of a function.
#[derive(Clone, Copy, Debug)]
pub struct FunctionTerms {
    pub guard: TermId,
    pub body: TermId,
}
