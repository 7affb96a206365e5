//! Lawful worlds: what holds of each definition that events make, and what stands as a world grows.
#![tactic(auto)]

ghost use Rattle.model_lawful.specs.Cliques.{CliquesAreAdmitted};
ghost use Rattle.model_lawful.specs.Growth.{SuitsWhatItBecomes};
ghost use Rattle.model_lawful.specs.Lawful.{LawfulWorlds};

/// What was found in a world when a form was checked still stands in the world that it becomes.
#[tactic(auto, using(crate::proofs::SuitLemmas::suits_what_it_becomes))]
pub fn worlds_suit_what_they_become()
    ensures { SuitsWhatItBecomes }
{}

/// A lawful world is threaded, and where it grows, only its new definitions are to be looked at.
#[tactic(auto, using(crate::proofs::LawfulLemmas::lawful_worlds))]
pub fn lawful_worlds_are_threaded()
    ensures { LawfulWorlds }
{}

/// A clique in which no rule fails is of functions that were admitted.
#[tactic(auto, using(crate::proofs::CliqueLemmas::cliques_are_admitted))]
pub fn accepted_cliques_are_admitted()
    ensures { CliquesAreAdmitted }
{}
