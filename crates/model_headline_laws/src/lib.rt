//! Which of the statements that this repository is for are proved, and that none of them is empty.
#![tactic(auto)]

ghost use Rattle.model_headline.specs.InPlace.{InPlaceEqualsApplicative, CommandsInPlace, BooksInPlace};
ghost use Rattle.model_headline.specs.Logic.{LogicFollows};
ghost use Rattle.model_headline_laws.specs.Creators.{ObligationsTellCreators, ObligationsTellValues};
ghost use Rattle.model_headline_laws.specs.Expressions.{ExpressionsFollow};
ghost use Rattle.model_headline_laws.specs.FromValues.{LogicFollowsFromValues};
ghost use Rattle.model_headline_laws.specs.Instances.{AreMet, HeldCellsArePrinted};

/// In place equals applicative, of every expression that the rules accept in a session that commands have made.
#[tactic(auto, using(crate::proofs::InPlaceLemmas::in_place_equals_applicative))]
pub fn in_place_equals_applicative()
    ensures { InPlaceEqualsApplicative }
{}

/// A command that is answered in place is answered as on lists, and leaves the same session.
#[tactic(auto, using(crate::proofs::InPlaceLemmas::commands_in_place))]
pub fn commands_in_place()
    ensures { CommandsInPlace }
{}

/// For all words and every input, a book whose live stobjs are overwritten in place has the output of the book on lists.
#[tactic(auto, using(crate::proofs::BookLemmas::books_in_place))]
pub fn books_in_place()
    ensures { BooksInPlace }
{}

/// The statements on what is written, on live stobjs, on want of memory and on held cells are met by sessions and books.
#[tactic(auto, using(crate::proofs::InstanceLemmas::are_met))]
pub fn statements_are_met()
    ensures { AreMet }
{}

/// What is held is what `(:CELLS)` prints, where the symbols are distinct and those of the lists are known.
#[tactic(auto, using(crate::proofs::InstanceLemmas::held_cells_are_printed))]
pub fn held_cells_are_printed()
    ensures { HeldCellsArePrinted }
{}

/// The logic follows checked evaluation in every session that commands have made, with abstract stobjs, where the obligations
/// hold of values; and without abstract stobjs in every one.
#[tactic(auto, using(crate::proofs::LogicLemmas::logic_follows_from_values))]
pub fn logic_follows_from_values()
    ensures { LogicFollowsFromValues }
{}

/// The printed obligations of the creator of an abstract stobj say, in every session that commands have made, that a new one
/// corresponds to a new one of the foundation, and is well formed.
#[tactic(auto, using(crate::proofs::CreatorLemmas::obligations_tell_creators))]
pub fn obligations_tell_creators()
    ensures { ObligationsTellCreators }
{}

/// The printed obligations of exports and creators say of values what the law of the logic asks, in every session that commands
/// have made.
#[tactic(auto, using(crate::proofs::ExportHolding::obligations_tell_values))]
pub fn obligations_tell_values()
    ensures { ObligationsTellValues }
{}

/// In every session that commands have made, where the printed obligations of its abstract stobjs hold, the logic follows checked
/// evaluation.
#[tactic(auto, using(crate::proofs::FollowsLemmas::logic_follows))]
pub fn logic_follows()
    ensures { LogicFollows }
{}

/// In every session that commands have made, where the printed obligations hold, what a command's expression evaluates to is what
/// the logic gives it, on lists that correspond to the live stobjs.
#[tactic(auto, using(crate::proofs::ExpressionLemmas::expressions_follow))]
pub fn expressions_follow()
    ensures { ExpressionsFollow }
{}
