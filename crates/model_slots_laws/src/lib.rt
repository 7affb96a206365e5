//! Which core forms have trees.
#![tactic(auto)]

ghost use Rattle.model_slots_laws.specs.Laws.{HaveTrees, AcceptedHaveTrees, FormedStand};

/// A form has a tree exactly where its functions stand and its bindings reach children, whatever the names and slots are.
#[tactic(auto, using(crate::proofs::TreeLemmas::have_trees))]
pub fn forms_have_trees()
    ensures { HaveTrees }
{}

/// A form in which no rule fails has a tree, where its functions stand.
#[tactic(auto, using(crate::proofs::AcceptedLemmas::accepted_have_trees))]
pub fn accepted_forms_have_trees()
    ensures { AcceptedHaveTrees }
{}

/// The functions of a form stand whose calls have as many actuals as the functions have formals.
#[tactic(auto, using(crate::proofs::AcceptedLemmas::formed_stand))]
pub fn functions_of_formed_forms_stand()
    ensures { FormedStand }
{}
