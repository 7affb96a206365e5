//! Cells.

use acl_owned::OwnedObject;

/// The number of a list in a table.
#[derive(Clone, Copy, Debug)]
pub struct ListId(pub u64);

/// What makes a list of lists that stand before it in the table.
#[derive(Drop)]
pub enum Cell {
    /// A scalar field, or an element.
    Value(OwnedObject),
    /// A hash field without pairs.
    NoPairs,
    /// A pair before the older ones; its key and its value are values elsewhere.
    Pair {
        key: ListId,
        value: ListId,
        older: ListId,
    },
    End,
    Item {
        first: ListId,
        rest: ListId,
    },
}
