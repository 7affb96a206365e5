//! What sessions that commands have made give to the logic: known symbols, tables, lists that fit.
#![tactic(auto)]

ghost use Rattle.model_made_logic.specs.Exports.{MadeExportsAreWritten};
ghost use Rattle.model_made_logic.specs.Followed.{MadeWorldsAreFollowedHere};
ghost use Rattle.model_made_logic.specs.Laws.{AcceptedFormsAreSuited, CommandsKeepTables, DefinitionsSupply, EvaluationKeepsKnown, MadeStobjsAreStocked, MadeSessionsAreKnown, MadeWorldsAreFollowed};

/// Checked evaluation keeps known symbols known, those of values and of live stobjs, and a table of symbols a table.
#[tactic(auto, using(crate::proofs::EvaluationLemmas::evaluation_keeps_known))]
pub fn evaluation_keeps_known()
    ensures { EvaluationKeepsKnown }
{}

/// Where the definitions of a world have known symbols, evaluation and expansion take known symbols from it.
#[tactic(auto, using(crate::proofs::LawLemmas::definitions_supply))]
pub fn definitions_supply()
    ensures { DefinitionsSupply }
{}

/// A command, and the reading of its form, keep the symbols of a session a table, and those of its definitions and live stobjs known.
#[tactic(auto, using(crate::proofs::CommandLemmas::commands_keep_tables))]
pub fn commands_keep_tables()
    ensures { CommandsKeepTables }
{}

/// The symbols of each session that commands have made are a table, and those of its definitions and live stobjs are known.
#[tactic(auto, using(crate::proofs::LawLemmas::made_sessions_known))]
pub fn made_sessions_are_known()
    ensures { MadeSessionsAreKnown }
{}

/// In each session that commands have made the functions of concrete stobjs have their inputs in the order that the logic
/// asks, and initial values meet their types.
#[tactic(auto, using(crate::proofs::LawLemmas::made_stobjs_stocked))]
pub fn made_stobjs_are_stocked()
    ensures { MadeStobjsAreStocked }
{}

/// Each form that a command expands to and that is accepted is as the logic asks: its constants are known, several values are
/// two at least, and its local stobjs can be made.
#[tactic(auto, using(crate::proofs::LawLemmas::accepted_forms_suited))]
pub fn accepted_forms_are_suited()
    ensures { AcceptedFormsAreSuited }
{}

/// The functions that run of a world that commands have made are as the logic asks, abstract stobjs can be made there, and
/// their functions have logic functions; where no function is of an abstract stobj, the world is as the logic asks.
#[tactic(auto, using(crate::proofs::LawLemmas::made_worlds_followed))]
pub fn made_worlds_are_followed()
    ensures { MadeWorldsAreFollowed }
{}

/// A world that commands have made is all that the law of the logic asks, abstract stobjs included: stobjs that are congruent
/// where a form was checked are seen alike, an export runs a function of the stobj's foundation, and an abstract stobj has the
/// layout of its foundation.
#[tactic(auto, using(crate::proofs::FollowedLemmas::made_worlds_followed_here))]
pub fn made_worlds_are_followed_here()
    ensures { MadeWorldsAreFollowedHere }
{}

/// In each session that commands have made an export is what its event made of its logic and exec functions, the creator of an
/// abstract stobj runs that of its foundation, and `EQUAL` and `NTH` are the primitives.
#[tactic(auto, using(crate::proofs::FollowedLemmas::made_exports_written))]
pub fn made_exports_are_written()
    ensures { MadeExportsAreWritten }
{}
