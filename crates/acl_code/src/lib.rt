//! Terms: core forms as the machine runs them, with slots in place of names and numbers in place of functions, in one table.
#![tactic(auto)]

ghost use Rattle.acl_code.specs.Laws.{TablesGrow, HeapsGrow, ConstantsStayKnown, AreFew};

mod building;
mod environment;
mod finish;
mod loans;
mod parts;
mod table;
mod term;

pub use building::build;
pub use environment::{Binding, Environment, bind_all, bind_ordinary, slot_behind};
pub use finish::{
    finish_call, finish_const, finish_if, finish_let, finish_must_be_equal, finish_mv,
    finish_mv_let, finish_stobj_let, finish_var, finish_with_local,
};
pub use loans::{children, number, variable_operand};
pub use parts::{put, put_parts};
pub use table::Terms;
pub use term::{Child, Operand, Parts, Term};

/// As a table grows its terms go on to stand for their trees, each over those of its parts.
#[tactic(auto, using(crate::proofs::LawLemmas::tables_grow))]
pub fn growth_keeps_trees()
    ensures { TablesGrow }
{}

/// As a heap grows in which the words of a table lie, its terms go on to stand for their trees.
#[tactic(auto, using(crate::proofs::LawLemmas::heaps_grow))]
pub fn heap_growth_keeps_trees()
    ensures { HeapsGrow }
{}

/// The constants of a table stay known as it grows or is cut, as its heap grows, and among more symbols.
#[tactic(auto, using(crate::proofs::LawLemmas::constants_stay_known))]
pub fn constants_stay_known()
    ensures { ConstantsStayKnown }
{}

/// The values of a form with lists of at most 2 ^ 32 names or parts take at most so many slots a level, so that its term can
/// be made.
#[tactic(auto, using(crate::proofs::LawLemmas::are_few))]
pub fn slots_are_few()
    ensures { AreFew }
{}
