//! Core forms with slots in place of names: the definitions, and laws on them.
#![tactic(auto)]

ghost use Rattle.std.specs.Prelude.{ℕ};
ghost use Rattle.model_slots.specs.Laws.{FindsVariables, BindsAsEvaluation, AreBound, KeepsNumbers};

/// The slot of a name is where checked evaluation finds its variable.
#[tactic(auto, using(crate::proofs::SlotLemmas::finds_variables))]
pub fn slots_are_variables()
    ensures { FindsVariables ℕ }
{}

/// Where values lie in a window as the forms say, an environment binds what checked evaluation binds.
#[tactic(auto, using(crate::proofs::SlotLemmas::binds_as_evaluation))]
pub fn environments_are_bound_variables()
    ensures { BindsAsEvaluation ℕ }
{}

/// What is bound has slots of its own, and the names that checked evaluation's variables have.
#[tactic(auto, using(crate::proofs::SlotLemmas::are_bound))]
pub fn environments_lie_below()
    ensures { AreBound }
{}

/// Numbers of functions find their definitions, and numbers and trees stay as a world grows.
#[tactic(auto, using(crate::proofs::WorldLemmas::keeps_numbers))]
pub fn growth_keeps_numbers()
    ensures { KeepsNumbers }
{}
