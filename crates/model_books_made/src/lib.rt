//! The sessions that books reach are sessions that commands have made.
#![tactic(auto)]

ghost use Rattle.model_books_made.specs.Laws.{BooksPrintOutcomes, BookSessionsAreMade};

/// A command whose form was read in a session that commands have made leaves such a session; so each command of a book
/// does, and so does a book that is answered twice.
#[tactic(auto, using(crate::proofs::BookLemmas::book_sessions_made))]
pub fn book_sessions_are_made()
    ensures { BookSessionsAreMade }
{}

/// What a book writes are the lines of its outcomes, and then the summary of all of them.
#[tactic(auto, using(crate::proofs::PrintLemmas::books_print_outcomes))]
pub fn books_print_outcomes()
    ensures { BooksPrintOutcomes }
{}
