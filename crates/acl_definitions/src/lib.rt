//! Definitions that enter a world together.
#![tactic(auto)]

ghost use Rattle.acl_definitions.specs.Laws.{AreAdded};

mod adding;
#[cfg(test)]
mod tests;

pub use adding::add_all;

/// In every heap a world with more definitions is the world with them, and names of which none is in use and none comes again are
/// new ones.
#[tactic(auto, using(crate::proofs::LawLemmas::are_added))]
pub fn definitions_are_added()
    ensures { AreAdded }
{}
