//! Rows of the logic value and of abstract evaluation, computed, beside what was worked out by hand.
#![tactic(auto)]

ghost use Rattle.model_abstract_rows.specs.Logic.{LogicIsRight, logic_rows, odd_rows};
ghost use Rattle.model_abstract_rows.specs.Abstractly.{AbstractlyRight, BoundsAreKept, Corresponds};
ghost use Rattle.model_abstract_rows.specs.Abstractly as abstractly;

/// Logic values: no guard, and a budget of calls.
#[tactic(auto, using(crate::proofs::Computed::logic_values))]
pub fn logic_values()
    ensures { LogicIsRight logic_rows }
{}

/// The functions of a stobj in the logic, on lists that no stobj has.
#[tactic(auto, using(crate::proofs::Computed::odd_lists))]
pub fn odd_lists()
    ensures { LogicIsRight odd_rows }
{}

/// Abstract evaluation of exports, and of a new abstract stobj.
#[tactic(auto, using(crate::proofs::Computed::abstract_values))]
pub fn abstract_values()
    ensures { AbstractlyRight abstractly.abstract_rows }
{}

/// What a logic function made too wide is shifted as it is, and is no result itself.
#[tactic(auto, using(crate::proofs::Computed::bounds))]
pub fn bounds_are_kept()
    ensures { BoundsAreKept }
{}

/// A foundation's list and an abstract list that correspond.
#[tactic(auto, using(crate::proofs::Computed::corresponding))]
pub fn corresponding_lists()
    ensures { Corresponds }
{}
