//! Objects: what they are, their weight, their cells and their order. Definitions, and laws about them.
#![tactic(auto)]

ghost use Rattle.model_objects.specs.Laws.{IsOrder, KeepsSize};

/// The order of objects is total, and agrees with equality.
#[tactic(auto, using(crate::proofs::LawLemmas::is_order))]
pub fn order_is_total()
    ensures { IsOrder }
{}

/// Another view of the symbols changes neither weight nor cells.
#[tactic(auto, using(crate::proofs::LawLemmas::keeps_size))]
pub fn naming_keeps_size()
    ensures { KeepsSize }
{}
