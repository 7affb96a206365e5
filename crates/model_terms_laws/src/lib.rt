//! Laws of congruence, of instances, of outputs by text and of the first fault.
#![tactic(auto)]

ghost use Rattle.model_terms_laws.specs.Laws.{FindsByName, IsEquivalence, IsAlone, IsInstance, ArePlaces, FindsFirst, KeepsOutputs, Settles, GivesExpected};
ghost use Rattle.model_terms_laws.specs.Parts.{GoesDown};

/// A definition is found by its name.
#[tactic(auto, using(crate::proofs::ClassLemmas::finds_by_name))]
pub fn definitions_are_found_by_name()
    ensures { FindsByName }
{}

/// Congruence parts the stobjs into classes.
#[tactic(auto, using(crate::proofs::ClassLemmas::is_equivalence))]
pub fn congruence_is_an_equivalence()
    ensures { IsEquivalence }
{}

/// An abstract stobj is congruent to no other.
#[tactic(auto, using(crate::proofs::ClassLemmas::is_alone))]
pub fn abstract_stobjs_are_alone()
    ensures { IsAlone }
{}

/// An instance renames the stobj formals of a signature to the actuals.
#[tactic(auto, using(crate::proofs::InstanceLemmas::is_instance))]
pub fn instances_rename()
    ensures { IsInstance }
{}

/// Every place of a form is looked at once, in the order of text.
#[tactic(auto, using(crate::proofs::PlaceLemmas::are_places))]
pub fn sites_are_places()
    ensures { ArePlaces }
{}

/// The fault that is named is the first.
#[tactic(auto, using(crate::proofs::FirstLemmas::finds_first))]
pub fn first_fault_is_first()
    ensures { FindsFirst }
{}

/// The first fault of a form is its own, else that of the first child that has one.
#[tactic(auto, using(crate::proofs::PartLemmas::goes_down))]
pub fn faults_go_down()
    ensures { GoesDown }
{}

/// New definitions leave the outputs of a form as they were.
#[tactic(auto, using(crate::proofs::GrowthLemmas::keeps_outputs))]
pub fn growth_keeps_outputs()
    ensures { KeepsOutputs }
{}

/// Rounds end.
#[tactic(auto, using(crate::proofs::RoundLemmas::settles))]
pub fn rounds_settle()
    ensures { Settles }
{}

/// What is accepted gives what is expected.
#[tactic(auto, using(crate::proofs::ExpectedLemmas::gives_expected))]
pub fn accepted_forms_give_what_is_expected()
    ensures { GivesExpected }
{}
