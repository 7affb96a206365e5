//! What comes of a call.

use acl_base::Word;
use acl_lists::ListId;

/// What comes of a call on a list.
#[derive(Clone, Copy, Debug)]
pub enum Done {
    /// Its guard is not met.
    Refuses,
    /// An ordinary value.
    Reads(Word),
    /// The value of a key, and whether it is bound.
    ReadsBoth(Word, Word),
    /// The object has another list; without a number, the empty one.
    Writes(Option<ListId>),
}

/// A field of a list, by its number.
#[derive(Clone, Copy, Debug)]
pub struct Place {
    pub list: Option<ListId>,
    pub field: u32,
}
