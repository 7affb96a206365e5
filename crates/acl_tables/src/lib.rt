//! Laws on the trees of a world's functions in a table of terms, as functions enter.
#![tactic(auto)]

ghost use Rattle.acl_tables.specs.Laws.{FunctionsBringTrees, PlainWorldsAreHeld, PlainDefinitionsKeepTrees};

/// Where a table holds the trees of a world's functions, it holds those of the world that functions have entered with it.
#[tactic(auto, using(crate::proofs::TreeLemmas::functions_bring_trees))]
pub fn functions_bring_trees()
    ensures { FunctionsBringTrees }
{}

/// A table holds the trees of a world in which no function was written.
#[tactic(auto, using(crate::proofs::PlainLemmas::plain_worlds_are_held))]
pub fn plain_worlds_are_held()
    ensures { PlainWorldsAreHeld }
{}

/// It holds them still where definitions enter to whose calls no terms belong, and the table grows.
#[tactic(auto, using(crate::proofs::KeepLemmas::plain_definitions_keep_trees))]
pub fn plain_definitions_keep_trees()
    ensures { PlainDefinitionsKeepTrees }
{}
