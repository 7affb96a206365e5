//! Laws of books: the program's words, the generated book, the tests of types, and what commands count.
#![tactic(auto)]

ghost use Rattle.model_books_laws.specs.BookRows.{BooksAreGenerated};
ghost use Rattle.model_books_laws.specs.Counting.{CommandsCount};
ghost use Rattle.model_books_laws.specs.Nesting.{NestingIsLimited};
ghost use Rattle.model_books_laws.specs.GuardRows.{GuardsAgreeWithEffects};
ghost use Rattle.model_books_laws.specs.Refusals.{SymbolLimitIsExact, TooLargeIsTheFirst};
ghost use Rattle.model_books_laws.specs.TypeTests.{TestsAreRight};
ghost use Rattle.model_books_laws.specs.WordRows.{WordsAreRight, word_rows};
ghost use Rattle.model_eval_rows.specs.Types.{type_rows};

/// Which words are of the program's grammar, and what they give.
#[tactic(auto, using(crate::proofs::Computed::program_words))]
pub fn program_words()
    ensures { WordsAreRight word_rows }
{}

/// The generated book, written out.
#[tactic(auto, using(crate::proofs::Computed::generated_books))]
pub fn generated_books()
    ensures { BooksAreGenerated }
{}

/// The test of each type, evaluated at a stobj, is `NIL` exactly where the stobj does not meet the type.
#[tactic(auto, using(crate::proofs::Computed::type_tests))]
pub fn type_tests()
    ensures { TestsAreRight type_rows }
{}

/// The calls of a command never pass the limit, its outer calls are among them, and symbols are only added.
#[tactic(auto, using(crate::proofs::CommandLemmas::commands_count))]
pub fn commands_count_calls()
    ensures { CommandsCount }
{}

/// Objects nest 64 deep, the outermost counted, and no deeper.
#[tactic(auto, using(crate::proofs::NestingLemmas::nesting_is_limited))]
pub fn nesting_is_limited()
    ensures { NestingIsLimited }
{}

/// The guard of a function that a stobj comes with, evaluated, is `NIL` exactly where a call of the function is stopped by it.
#[tactic(auto, using(crate::proofs::GuardsComputed::guards_agree))]
pub fn guards_agree_with_effects()
    ensures { GuardsAgreeWithEffects }
{}

/// An abstract stobj is refused for its first obligation that is too heavy, and for no other.
#[tactic(auto, using(crate::proofs::WeightLemmas::too_large_is_the_first))]
pub fn too_large_is_the_first()
    ensures { TooLargeIsTheFirst }
{}

/// A definition of a stobj is refused at the limit of symbols exactly where its names would be too many.
#[tactic(auto, using(crate::proofs::RoomLemmas::symbol_limit_is_exact))]
pub fn symbol_limit_is_exact()
    ensures { SymbolLimitIsExact }
{}
