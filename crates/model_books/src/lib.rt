//! Books: sessions, commands, lines, the program's words, and the output of words and bytes. Definitions, and laws.
#![tactic(auto)]

ghost use Rattle.model_books.specs.Opening.{IsOpening};

/// The numbers of the primitives and of the two constants' symbols are those of the table that every session begins with.
#[tactic(auto, using(crate::proofs::OpeningLemmas::opening_numbers))]
pub fn opening_is_numbered()
    ensures { IsOpening }
{}
