//! What stands at a place in the end.

use acl_layers::{Kind, Part};
use acl_terms::Core;
use sqlite_items::Items;

/// A whole core form, or a node.
#[derive(Drop)]
pub enum Placed {
    Leaf(Core),
    Node(Kind, Items<Part>),
}
