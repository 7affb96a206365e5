//! Laws on what is written in a definition: its parts have the symbols of its form, and the tests in its guards are shaped.
#![tactic(auto)]

ghost use Rattle.model_drafts.specs.Laws.{DraftsAreShaped, DraftsAreKnown, MacrosAreKnown, ConstantsAreKnown};

/// The tests in the guards of functions bind as many forms as names, and have two parts where they have several.
#[tactic(auto, using(crate::proofs::LawLemmas::drafts_are_shaped))]
pub fn drafts_are_shaped()
    ensures { DraftsAreShaped }
{}

/// The guards and bodies of functions have the symbols of what is written.
#[tactic(auto, using(crate::proofs::LawLemmas::drafts_are_known))]
pub fn drafts_are_known()
    ensures { DraftsAreKnown }
{}

/// So have the body of a macro and what its formals are by default.
#[tactic(auto, using(crate::proofs::LawLemmas::macros_are_known))]
pub fn macros_are_known()
    ensures { MacrosAreKnown }
{}

/// So has the form of a constant.
#[tactic(auto, using(crate::proofs::LawLemmas::constants_are_known))]
pub fn constants_are_known()
    ensures { ConstantsAreKnown }
{}
