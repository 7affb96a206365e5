//! Congruent stobjs, instances of signatures, and the outputs by text of core forms, in a world as it stands in a heap.
#![tactic(auto)]

mod by_text;
mod instances;
mod kinds;
mod lists;
mod parts;
mod scopes;
#[cfg(test)]
mod tests;

pub use by_text::outputs;
pub use instances::{actual_of, all_congruent, instantiate, renamed_out, stobjs};
pub use kinds::{class_of, congruent, is_stobj_name, name_kind};
pub use lists::{has, repeats};
pub use parts::{known_signature, part_kinds, stobj_actuals, variable};
pub use scopes::{
    bind, body_scope, consumer_scope, names_of, ordinary_names, other_names, without,
};
