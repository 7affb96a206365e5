//! What a journal notes.
use acl_fields::OldPart;

/// What was in a field of a node.
#[derive(Drop)]
pub struct Old {
    pub node: usize,
    pub field: usize,
    pub part: OldPart,
}
