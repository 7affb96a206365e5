//! What the logic gives has symbols of known packages.
#![tactic(auto)]

ghost use Rattle.model_logic_laws.specs.Arguments.{FormalsTellArguments};
ghost use Rattle.model_logic_laws.specs.Equations.{EquationsTellOutputs};
ghost use Rattle.model_logic_laws.specs.Exports.{ObligationsTellExports};
ghost use Rattle.model_logic_laws.specs.Guards.{ExportsCallAlike, RenamedFormsAgree};
ghost use Rattle.model_logic_laws.specs.Homes.{CallsKeepHomes};

/// What a call of the logic gives has symbols of known packages, where its arguments have: constants have known symbols, and a
/// symbol is interned in a known package.
#[tactic(auto, using(crate::proofs::LogicHomes::calls_keep_homes))]
pub fn calls_keep_homes()
    ensures { CallsKeepHomes }
{}

/// An accepted form in which functions are called by other names, under which the logic gives the same, has the same value.
#[tactic(auto, using(crate::proofs::GuardLemmas::renamed_forms_agree))]
pub fn renamed_forms_agree()
    ensures { RenamedFormsAgree }
{}

/// Where the equations of the outputs of two calls hold, as an obligation prints them, both calls end, ordinary outputs are
/// equal and stobjs correspond.
#[tactic(auto, using(crate::proofs::EquationLemmas::equations_tell_outputs))]
pub fn equations_tell_outputs()
    ensures { EquationsTellOutputs }
{}

/// The obligations of an export, as they are printed, say of all values of variables: where the lists correspond and the logic
/// guard holds, both functions end with outputs that meet; and the logic function keeps the list well formed.
#[tactic(auto, using(crate::proofs::ExportLemmas::obligations_tell_exports))]
pub fn obligations_tell_exports()
    ensures { ObligationsTellExports }
{}

/// A function of an abstract stobj is called in the logic as its logic function: with the same value and as many calls.
#[tactic(auto, using(crate::proofs::CallLemmas::exports_call_alike))]
pub fn exports_call_alike()
    ensures { ExportsCallAlike }
{}

/// The values of an export's formals, one after another, are its arguments, and those of its exec function's have the
/// foundation's list in place of the abstract one.
#[tactic(auto, using(crate::proofs::ArgumentLemmas::formals_tell_arguments))]
pub fn formals_tell_arguments()
    ensures { FormalsTellArguments }
{}
