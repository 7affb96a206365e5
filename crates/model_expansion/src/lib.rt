//! Expansion: core forms and built-in macros, user macros, tests of types, and the faults of all. Definitions, and a law.
#![tactic(auto)]

ghost use Rattle.model_expansion.specs.Words.{AreNumbered};

/// The numbers that forms are told by are those of their names in the table that every session begins with.
#[tactic(auto, using(crate::proofs::WordLemmas::numbered_words))]
pub fn words_are_numbered()
    ensures { AreNumbered }
{}
