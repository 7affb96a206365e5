//! Laws on what a world supplies to an expansion: that its symbols are known, and stay known as the world grows.
#![tactic(auto)]

ghost use Rattle.model_supplies.specs.Laws.{SuppliesAreKnown, SuppliesStay};

/// Where a world supplies an expansion with known symbols, they are known as its parts ask it.
#[tactic(auto, using(crate::proofs::SupplyLemmas::supplies_are_known))]
pub fn supplies_are_known()
    ensures { SuppliesAreKnown }
{}

/// They stay known with more definitions that supply known symbols, beside names and signatures of functions, and among more symbols.
#[tactic(auto, using(crate::proofs::SupplyLemmas::supplies_stay))]
pub fn supplies_stay()
    ensures { SuppliesStay }
{}
