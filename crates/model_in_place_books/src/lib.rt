//! Commands and whole books whose live stobjs are overwritten in place, and what one root after another tells. Definitions.
#![tactic(auto)]

ghost use Rattle.model_in_place_books.specs.Laws.{RootsAreRead};

/// What the same writes make of lists and of roots is the same, read off the roots.
#[tactic(auto, using(crate::proofs::RootLemmas::roots_are_read))]
pub fn roots_tell_lists()
    ensures { RootsAreRead }
{}
