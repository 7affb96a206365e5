//! Nodes by their numbers, each with a layout and parts, and what they stand for: the lists of roots, with a place for each node.
#![tactic(auto)]

ghost use Rattle.acl_nodes.specs.Seen.{StandFor};

/// Where each field of a node's own shows one list, the list at a node's place is the one that the node stands for, through its children.
#[tactic(auto, using(crate::proofs::SeenLemmas::stand_for, crate::proofs::NoteLemmas::write_remembered, crate::proofs::CutLemmas::cut_holds, crate::proofs::MovedLemmas::cut_remembered, crate::proofs::ExtendLemmas::extended_part, crate::proofs::MakingLemmas::created, crate::proofs::FieldLemmas::part_written))]
pub fn nodes_stand<O>()
    ensures { StandFor O }
{}
