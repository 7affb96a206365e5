//! Laws on which functions stand that a form calls: those of a form that an expansion made, and as a world grows or its definitions change.
#![tactic(auto)]

ghost use Rattle.model_standing.specs.Laws.{ExpandedStand, StandingStays, RowFunctionsStay, CandidatesStand};

/// Each function stands that a form calls which an expansion made in this world.
#[tactic(auto, using(crate::proofs::StandLemmas::expanded_stand))]
pub fn functions_of_expanded_forms_stand()
    ensures { ExpandedStand }
{}

/// They stand in each world with definitions of the same names, and with more.
#[tactic(auto, using(crate::proofs::StandLemmas::standing_stays))]
pub fn functions_stay()
    ensures { StandingStays }
{}

/// What the built-in macros call stands in a world with more definitions.
#[tactic(auto, using(crate::proofs::StandLemmas::row_functions_stay))]
pub fn row_functions_stay()
    ensures { RowFunctionsStay }
{}

/// What functions that are admitted together call stands in the world in which they are checked.
#[tactic(auto, using(crate::proofs::CandidateLemmas::candidates_stand))]
pub fn functions_of_candidates_stand()
    ensures { CandidatesStand }
{}
