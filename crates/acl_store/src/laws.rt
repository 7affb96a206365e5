//! Laws of what stores hold.
ghost use Rattle.acl_store.specs.Laws.{LayoutsTell, NodesStand, WritesAreUpdates};

/// Whatever nodes hold, the list at a node's place is the one that the node stands for, through its children.
#[tactic(auto, using(crate::proofs::LawLemmas::nodes_stand))]
pub fn nodes_stand()
    ensures { NodesStand }
{}

/// A write of an integer is an update of the object at its node's place.
#[tactic(auto, using(crate::proofs::LawLemmas::updates))]
pub fn writes_are_updates()
    ensures { WritesAreUpdates }
{}

/// Nodes that are as their layouts say are such as the calls ask for.
#[tactic(auto, using(crate::proofs::LayoutLemmas::layouts_tell))]
pub fn layouts_tell()
    ensures { LayoutsTell }
{}
