//! Laws of the core forms that an expansion makes: they call functions of the world with as many actuals as formals, their parts are as many as their names, and the symbols of their constants are known.
#![tactic(auto)]

ghost use Rattle.model_expansion_forms.specs.Laws.{FormsAreKnown, FormsAreWellCalled, TestsAreShaped};

/// Each core form that an expansion makes calls functions of its world with as many actuals as formals, binds as many
/// forms as names, has two values at least where it has several, and is not too deep.
#[tactic(auto, using(crate::proofs::LawLemmas::forms_are_well_called))]
pub fn forms_are_well_called()
    ensures { FormsAreWellCalled }
{}

/// The symbols of its constants are known, where those of the form are, those of the world's constants, and what macros give.
#[tactic(auto, using(crate::proofs::LawLemmas::forms_are_known))]
pub fn forms_are_known()
    ensures { FormsAreKnown }
{}

/// The tests of types bind nothing, and the symbols of their constants are those of the type as it is written.
#[tactic(auto, using(crate::proofs::LawLemmas::tests_are_shaped))]
pub fn tests_are_shaped()
    ensures { TestsAreShaped }
{}
