//! Laws on the worlds in which functions were checked, and on the bodies of macros, as a world grows.
#![tactic(auto)]

ghost use Rattle.model_origins.specs.Laws.{PlainDefinitionsKeepOrigins, FunctionsKeepOrigins, EventsAdmit, MacrosHaveBodies, PlainWorldsHaveOrigins, WorldsBeforeStay};

/// Functions to come, constants and macros keep a world threaded; the worlds in which its functions were checked suit it still,
/// and the bodies of its macros are as they were.
#[tactic(auto, using(crate::proofs::KeepLemmas::plain_definitions_keep_origins))]
pub fn plain_definitions_keep_origins()
    ensures { PlainDefinitionsKeepOrigins }
{}

/// So do functions that are admitted together, which were checked in the world in which they stand by their signatures.
#[tactic(auto, using(crate::proofs::FunctionLemmas::functions_keep_origins))]
pub fn functions_keep_origins()
    ensures { FunctionsKeepOrigins }
{}

/// What the steps of an event answer is what those functions ask.
#[tactic(auto, using(crate::proofs::FunctionLemmas::events_admit))]
pub fn events_admit()
    ensures { EventsAdmit }
{}

/// A macro that enters has a body that may be run.
#[tactic(auto, using(crate::proofs::BeginLemmas::macros_have_bodies))]
pub fn macros_have_bodies()
    ensures { MacrosHaveBodies }
{}

/// The world that every session begins with is threaded, and no function in it was checked.
#[tactic(auto, using(crate::proofs::BeginLemmas::plain_worlds_have_origins))]
pub fn plain_worlds_have_origins()
    ensures { PlainWorldsHaveOrigins }
{}

/// Where the worlds in which functions and macros were checked became the world, what was found in them is found also once stobjs enter.
#[tactic(auto, using(crate::proofs::BeforeLemmas::worlds_before_stay))]
pub fn worlds_before_stay()
    ensures { WorldsBeforeStay }
{}
