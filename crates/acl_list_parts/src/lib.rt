//! Parts of lists of objects: their items, and the children in them. A list is a number of a table, or none where it is empty.
#![tactic(auto)]

mod children;
mod indices;
mod items;

pub use children::{child_in, put_child};
pub use indices::{is_index, is_up_to, natural};
pub use items::{item, number, size, with_item};
