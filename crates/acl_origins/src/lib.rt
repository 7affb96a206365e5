//! Laws on functions and macros that a machine runs from a table of terms, as definitions enter their world.
#![tactic(auto)]

ghost use Rattle.acl_origins.specs.Laws.{PlainDefinitionsKeepRuns, StobjsKeepRuns, FunctionsKeepRuns, BodiesAreKept, PlainWorldsAreRun};

/// Functions that may be run still may where functions to come, constants and macros enter.
#[tactic(auto, using(crate::proofs::RunLemmas::plain_definitions_keep_runs))]
pub fn plain_definitions_keep_runs()
    ensures { PlainDefinitionsKeepRuns }
{}

/// So they do where stobjs enter with their functions.
#[tactic(auto, using(crate::proofs::RunLemmas::stobjs_keep_runs))]
pub fn stobjs_keep_runs()
    ensures { StobjsKeepRuns }
{}

/// So they do where functions enter that are admitted together, and those may be run.
#[tactic(auto, using(crate::proofs::EnteredLemmas::functions_keep_runs))]
pub fn functions_keep_runs()
    ensures { FunctionsKeepRuns }
{}

/// The bodies of macros may still be run where definitions enter.
#[tactic(auto, using(crate::proofs::BodyLemmas::bodies_are_kept))]
pub fn bodies_are_kept()
    ensures { BodiesAreKept }
{}

/// In the world that every session begins with there is nothing to be run.
#[tactic(auto, using(crate::proofs::PlainLemmas::plain_worlds_are_run))]
pub fn plain_worlds_are_run()
    ensures { PlainWorldsAreRun }
{}
