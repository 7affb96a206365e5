//! The conditions on nested and local stobjs.
#![tactic(auto)]

mod accessors;
mod bindings;
mod children;
mod kinds;
mod local;
mod stobj_let;

pub use accessors::{ChildAccessor, HeldStobjs, child_accessor, held_in};
pub use bindings::{BoundChild, ChildIndex, Reached, bound_children, reached_in};
pub use kinds::{is_object, name_kinds, outs, same_kind, same_kinds, stobjs_expected};
pub use local::check_local;
pub use stobj_let::check_let;
