//! Accepted forms: what is known of a form in which no rule fails, of its parts, and of the scopes in it.
#![tactic(auto)]

ghost use Rattle.model_accepted.specs.Laws.{PartsAreAccepted, VariablesFit};

/// The parts of a form in which no rule fails are accepted, each in its scope and for what it is to give.
#[tactic(auto, using(crate::proofs::LawLemmas::parts_are_accepted))]
pub fn parts_of_accepted_forms_are_accepted()
    ensures { PartsAreAccepted }
{}

/// Where names are bound, as evaluation binds them, each name in the inner scope is a variable of its kind.
#[tactic(auto, using(crate::proofs::LawLemmas::variables_fit))]
pub fn variables_fit_their_scopes()
    ensures { VariablesFit }
{}
