//! Types that are written as objects: which objects are types, and the test of a type as a core form.
#![tactic(auto)]

mod accepted;
mod building;
mod forms;
mod reading;
mod shape;
mod words;

pub use accepted::{DEEPEST_TEST, is_type};
pub use building::type_test;
pub use forms::{call_one, call_two, choice, constant, variable};
pub use reading::{is_true_list, list_shape, shape_of};
pub use shape::{Join, Leaf, Shape, Step};
