//! In place equals applicative: evaluation with stobjs in place and evaluation on lists agree on accepted forms.
#![tactic(auto)]

ghost use Rattle.model_in_place.specs.Commands.{CommandsAgree};
ghost use Rattle.model_in_place.specs.Example.{IsExample};
ghost use Rattle.model_in_place.specs.Keeping.{ChangesOnlyOutputs};
ghost use Rattle.model_in_place.specs.Laws.{InPlaceIsApplicative};

/// Evaluation in place gives what checked evaluation on lists gives, a stop with where it came from, and leaves each stobj in
/// scope with the list that it leaves; only at a stop while an export was already under way are the roots left to that export's end.
#[tactic(auto, using(crate::proofs::LawLemmas::in_place_is_applicative))]
pub fn in_place_is_applicative()
    ensures { InPlaceIsApplicative }
{}

/// The same of an expression over live stobjs, each with a root of its own.
#[tactic(auto, using(crate::proofs::BeginLemmas::commands_agree))]
pub fn commands_agree_in_place()
    ensures { CommandsAgree }
{}

/// What is asked of a world holds of one with a stobj, a child and a function that writes the child; and both ways it is written.
#[tactic(auto, using(crate::proofs::ExampleLemmas::is_example))]
pub fn a_world_is_threaded()
    ensures { IsExample }
{}

/// An accepted form gives the expected outputs, and changes no stobj that is not among them.
#[tactic(auto, using(crate::proofs::BeginLemmas::changes_only_outputs))]
pub fn accepted_forms_change_only_outputs()
    ensures { ChangesOnlyOutputs }
{}
