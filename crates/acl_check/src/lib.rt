//! The check of definitions and of other forms, and the signatures of functions that are admitted together.
#![tactic(auto)]

mod checks;
mod cliques;
mod declared;
mod faults;
mod macros;
mod member;

pub use checks::{check_clique, check_constant, check_expression, check_form, check_macro};
pub use cliques::{clique, learned, member_signature, put_learned};
pub use faults::{clique_fault, form_fault, member_fault};
pub use macros::formal_names;
pub use member::{Member, formal_kinds, formal_scope};
