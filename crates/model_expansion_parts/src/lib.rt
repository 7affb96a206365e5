//! Laws on the nodes of an expansion: each has as many parts as its kind asks for, and known symbols make known symbols.
#![tactic(auto)]

ghost use Rattle.model_expansion_parts.specs.Laws.{RowsHaveParts, LooksHaveParts, PlacesHaveParts, NodesHaveParts, PartsAreKnown};

/// What a row makes has as many parts as its kind asks for.
#[tactic(auto, using(crate::proofs::LawLemmas::rows_have_parts))]
pub fn rows_have_parts()
    ensures { RowsHaveParts }
{}

/// So has what is seen at a place.
#[tactic(auto, using(crate::proofs::LawLemmas::looks_have_parts))]
pub fn looks_have_parts()
    ensures { LooksHaveParts }
{}

/// So has what stands at a place after one use, and in the end.
#[tactic(auto, using(crate::proofs::LawLemmas::places_have_parts))]
pub fn places_have_parts()
    ensures { PlacesHaveParts }
{}

/// So have the core forms that a node is made of.
#[tactic(auto, using(crate::proofs::LawLemmas::nodes_have_parts))]
pub fn nodes_have_parts()
    ensures { NodesHaveParts }
{}

/// What is made of forms with known symbols has known symbols, where what the world supplies has.
#[tactic(auto, using(crate::proofs::LawLemmas::parts_are_known))]
pub fn parts_are_known()
    ensures { PartsAreKnown }
{}
