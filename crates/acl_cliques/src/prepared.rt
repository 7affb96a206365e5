//! What functions are admitted with.

use acl_base::SymId;
use acl_terms::Signature;
use acl_translate::FunctionTerms;
use sqlite_items::Items;

/// The signatures of the functions that run, each with its name, and the terms of all functions in their order.
#[derive(Drop)]
pub struct Prepared {
    pub known: Items<(SymId, Signature)>,
    pub terms: Items<FunctionTerms>,
}
