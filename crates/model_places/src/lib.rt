//! Places in the lists of roots, and what a write at one leaves at the others.
#![tactic(auto)]

ghost use Rattle.model_places.specs.Laws.{PlacesAreWritten};

/// A write gives the list at its place, leaves the lists apart from it, may be done again, is gone after the next one there, and may
/// be done before or after one apart.
#[tactic(auto, using(crate::proofs::WrittenLemmas::places_are_written))]
pub fn places_are_written()
    ensures { PlacesAreWritten }
{}
