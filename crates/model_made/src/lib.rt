//! Sessions that commands have made, and what holds of their worlds and stobjs.
#![tactic(auto)]

ghost use Rattle.model_made.specs.Laws.{CommandsStayLawful, DefinitionsStayLawful, LawfulSessionsAreThreaded, MadeSessionsAreLawful, OpeningIsLawful};
ghost use Rattle.model_made.specs.Made.{IsMade};

/// The session that every run begins with is lawful.
#[tactic(auto, using(crate::proofs::OpeningLemmas::opening_is_lawful))]
pub fn the_opening_session_is_lawful()
    ensures { OpeningIsLawful }
{}

/// Macros, constants, functions, concrete and abstract stobjs keep a world lawful.
#[tactic(auto, using(crate::proofs::LawLemmas::definitions_stay_lawful))]
pub fn definitions_stay_lawful()
    ensures { DefinitionsStayLawful }
{}

/// Each command keeps a session lawful: its world, and its live stobjs in order
/// with lists that have the fields of their layouts.
#[tactic(auto, using(crate::proofs::CommandLemmas::commands_stay_lawful))]
pub fn commands_stay_lawful()
    ensures { CommandsStayLawful }
{}

/// The world of a lawful session is threaded, and suits itself.
#[tactic(auto, using(crate::proofs::CommandLemmas::sessions_are_threaded))]
pub fn lawful_sessions_are_threaded()
    ensures { LawfulSessionsAreThreaded }
{}

/// A session that commands made is lawful, and its world is threaded and suits itself.
#[tactic(auto, using(crate::proofs::CommandLemmas::made_sessions_lawful))]
pub fn made_sessions_are_lawful()
    ensures { MadeSessionsAreLawful }
{}
