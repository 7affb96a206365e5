//! Core forms and built-in macros, one layer at a time: what a row of the table makes of what stands behind its head.
#![tactic(auto)]

ghost use Rattle.acl_layers.specs.Laws.{AreKept};

mod binding_parts;
mod chained;
mod clauses;
mod counted;
mod distinct;
mod layer;
mod lists;
mod made;
mod making;
mod names;
mod ready;
mod rows;
mod scoping;
mod typed;
mod words;

pub use acl_types::is_true_list;
pub use binding_parts::{
    are_different, binding, bindings, body_of, bound_forms, bound_names, has_head, variables,
};
pub use layer::{Found, Kind, Left, Made, Part, Ready};
pub use lists::{elements, is_end, is_pair, is_symbol, take};
pub use made::made_of;
pub use making::forms;
pub use names::{
    home_of, is_key, is_keyword, is_self_evaluating, may_be_variable, symbol_name, variable_name,
};
pub use ready::core_of;
pub use rows::{Binary, Letter, Path, Row, Unit, core_row, macro_row};

/// As a heap grows, parts go on to stand for what they stood for, and what is left of a row goes on to fit it.
#[tactic(auto, using(crate::proofs::LawLemmas::are_kept))]
pub fn growth_keeps_layers()
    ensures { AreKept }
{}
