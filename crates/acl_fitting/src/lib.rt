//! Laws on what the engine of lists asks of a world, as definitions enter it.
#![tactic(auto)]

ghost use Rattle.acl_fitting.specs.Laws.{PlainDefinitionsFit, TablesStay, FunctionsFit, StobjsFit, EnteredStobjsFit, DescriptorsAreTyped, OpeningFits, GrowthFits};

/// A table of terms fits a world still where functions to come, constants and macros enter.
#[tactic(auto, using(crate::proofs::FitLemmas::plain_definitions_fit))]
pub fn plain_definitions_fit()
    ensures { PlainDefinitionsFit }
{}

/// A table that fits a world is one that has grown by nothing.
#[tactic(auto, using(crate::proofs::FitLemmas::tables_stay))]
pub fn tables_stay()
    ensures { TablesStay }
{}

/// A table fits a world still where functions enter that are admitted together.
#[tactic(auto, using(crate::proofs::FitLemmas::functions_fit))]
pub fn functions_fit()
    ensures { FunctionsFit }
{}

/// So it does where stobjs enter with their functions.
#[tactic(auto, using(crate::proofs::FitLemmas::stobjs_fit))]
pub fn stobjs_fit()
    ensures { StobjsFit }
{}

/// So it does where a stobj has entered with its layout.
#[tactic(auto, using(crate::proofs::EnterLemmas::entered_stobjs_fit))]
pub fn entered_stobjs_fit()
    ensures { EnteredStobjsFit }
{}

/// The definition of a stobj is granted only where the types of its fields are accepted.
#[tactic(auto, using(crate::proofs::TypeLemmas::descriptors_are_typed))]
pub fn descriptors_are_typed()
    ensures { DescriptorsAreTyped }
{}

/// A table without terms fits the world that every session begins with.
#[tactic(auto, using(crate::proofs::BeginLemmas::opening_fits))]
pub fn opening_fits()
    ensures { OpeningFits }
{}

/// A table fits a world still as heap and symbols grow.
#[tactic(auto, using(crate::proofs::BeginLemmas::growth_fits))]
pub fn growth_fits()
    ensures { GrowthFits }
{}
