//! What evaluates for the crates above: the one call that expansion makes, and what it promises.
#![tactic(auto)]

ghost use Rattle.acl_engine.specs.Laws.{TellsOneOutcome};

mod engine;
mod outcome;

pub use engine::Engine;
pub use outcome::Outcome;

/// An outcome that is not want of memory stands for one outcome of the definitions alone.
#[tactic(auto, using(crate::proofs::LawLemmas::tells_one))]
pub fn outcomes_are_told()
    ensures { TellsOneOutcome }
{}
