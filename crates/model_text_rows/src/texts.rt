ghost use Rattle.model_text_rows.specs.TextRows.{Integers, Symbols, Bars, BadTokens, UnknownPackages, Lists, Dots, Strings, Ends, Quotes, Backquotes, Commas, Bytes, FaultsTogether, Limits, Printed};

/// Integers in four bases, with and without sign, up to both ends of 128 bits.
#[tactic(auto, using(crate::proofs::TextRows::integers))]
pub fn integers()
    ensures { Integers }
{}

/// Symbols: raised letters, signs, imports, keywords, packages and bars.
#[tactic(auto, using(crate::proofs::TextRows::symbols))]
pub fn symbols()
    ensures { Symbols }
{}

/// Bytes between bars are taken as they are, and a part that is two bars is there and empty.
#[tactic(auto, using(crate::proofs::TextRows::bars))]
pub fn bars()
    ensures { Bars }
{}

/// Ratios, floats, dots, colons, hashes and backslashes that no token may have.
#[tactic(auto, using(crate::proofs::TextRows::bad_tokens))]
pub fn bad_tokens()
    ensures { BadTokens }
{}

/// Packages that are not known, and the one that no text can name.
#[tactic(auto, using(crate::proofs::TextRows::unknown_packages))]
pub fn unknown_packages()
    ensures { UnknownPackages }
{}

/// Lists and dots.
#[tactic(auto, using(crate::proofs::TextRows::lists))]
pub fn lists()
    ensures { Lists }
{}

/// Dots that stand where none may.
#[tactic(auto, using(crate::proofs::TextRows::dots))]
pub fn dots()
    ensures { Dots }
{}

/// Strings, comments of both kinds, and where they end.
#[tactic(auto, using(crate::proofs::TextRows::strings))]
pub fn strings()
    ensures { Strings }
{}

/// The end of the input.
#[tactic(auto, using(crate::proofs::TextRows::ends))]
pub fn ends()
    ensures { Ends }
{}

/// Quotes, and brackets that close none of them.
#[tactic(auto, using(crate::proofs::TextRows::quotes))]
pub fn quotes()
    ensures { Quotes }
{}

/// Templates and the forms that they are short for.
#[tactic(auto, using(crate::proofs::TextRows::backquotes))]
pub fn backquotes()
    ensures { Backquotes }
{}

/// Commas and backquotes that stand where none may.
#[tactic(auto, using(crate::proofs::TextRows::commas))]
pub fn commas()
    ensures { Commas }
{}

/// Bytes that may not stand, and those that may inside bars, strings and comments.
#[tactic(auto, using(crate::proofs::TextRows::bytes))]
pub fn bytes()
    ensures { Bytes }
{}

/// Of two faults the first is told.
#[tactic(auto, using(crate::proofs::TextRows::faults_together))]
pub fn faults_together()
    ensures { FaultsTogether }
{}

/// How deep, how long and how far a text may be.
#[tactic(auto, using(crate::proofs::TextRows::limits))]
pub fn limits()
    ensures { Limits }
{}

/// Printed forms.
#[tactic(auto, using(crate::proofs::TextRows::printed))]
pub fn printed()
    ensures { Printed }
{}
