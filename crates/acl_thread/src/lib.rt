//! The single-threadedness check of core forms: the rules on the use of stobjs at a form itself, and faults on their way
//! out of it.
#![tactic(auto)]

ghost use Rattle.acl_thread.specs.Laws.{AreOwn};

mod arms;
mod calls;
mod ends;
mod fault;
mod given;
mod own;
mod parts;
mod pass;
mod scopes;

pub use calls::{call_rule, runs};
pub use ends::{Bound, Walked, finish, finish_first, finish_if, finish_let, finish_second};
pub use fault::{Fault, down, either, named, settle};
pub use given::{give_same, gives, is_bound_wrongly, single};
pub use own::{
    branch_rule, const_rule, let_rule, mv_let_rule, mv_rule, stobj_let_rule, var_rule,
    with_local_rule,
};
pub use parts::{actual_kind, any_stobj, called_ins, formal_stobj, kind_at};
pub use pass::walk;
pub use scopes::producer_scope;

/// At each variant of a form the rule that fails is the smallest whose condition fails.
#[tactic(auto, using(crate::proofs::LawLemmas::are_own))]
pub fn rules_of_variants()
    ensures { AreOwn }
{}
