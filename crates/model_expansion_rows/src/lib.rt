//! Books of expansion, each computed from the definitions: shapes, refusals in their order, counts. Written by
//! tools/rows.py from the files in rows/.
#![tactic(auto)]

ghost use Rattle.model_expansion_rows.specs.Rows.{ArithmeticMacros, BarePackage, BindingForms, CoreShapes, DeclaredTypes, DeepRefused, DeepTaken, Formals, Limits, ListMacros, LogicalMacros, LowerCase, MacroRefusals, MacrosStop, OptionalFormals, OtherMacros, RestAndKeys, TheOfTypes};

/// The row `arithmetic_macros`.
#[tactic(auto, using(crate::proofs::RowArithmeticMacros::is_computed))]
pub fn arithmetic_macros()
    ensures { ArithmeticMacros }
{}

/// The row `bare_package`.
#[tactic(auto, using(crate::proofs::RowBarePackage::is_computed))]
pub fn bare_package()
    ensures { BarePackage }
{}

/// The row `binding_forms`.
#[tactic(auto, using(crate::proofs::RowBindingForms::is_computed))]
pub fn binding_forms()
    ensures { BindingForms }
{}

/// The row `core_shapes`.
#[tactic(auto, using(crate::proofs::RowCoreShapes::is_computed))]
pub fn core_shapes()
    ensures { CoreShapes }
{}

/// The row `declared_types`.
#[tactic(auto, using(crate::proofs::RowDeclaredTypes::is_computed))]
pub fn declared_types()
    ensures { DeclaredTypes }
{}

/// The row `deep_refused`.
#[tactic(auto, using(crate::proofs::RowDeepRefused::is_computed))]
pub fn deep_refused()
    ensures { DeepRefused }
{}

/// The row `deep_taken`.
#[tactic(auto, using(crate::proofs::RowDeepTaken::is_computed))]
pub fn deep_taken()
    ensures { DeepTaken }
{}

/// The row `formals`.
#[tactic(auto, using(crate::proofs::RowFormals::is_computed))]
pub fn formals()
    ensures { Formals }
{}

/// The row `limits`.
#[tactic(auto, using(crate::proofs::RowLimits::is_computed))]
pub fn limits()
    ensures { Limits }
{}

/// The row `list_macros`.
#[tactic(auto, using(crate::proofs::RowListMacros::is_computed))]
pub fn list_macros()
    ensures { ListMacros }
{}

/// The row `logical_macros`.
#[tactic(auto, using(crate::proofs::RowLogicalMacros::is_computed))]
pub fn logical_macros()
    ensures { LogicalMacros }
{}

/// The row `lower_case`.
#[tactic(auto, using(crate::proofs::RowLowerCase::is_computed))]
pub fn lower_case()
    ensures { LowerCase }
{}

/// The row `macro_refusals`.
#[tactic(auto, using(crate::proofs::RowMacroRefusals::is_computed))]
pub fn macro_refusals()
    ensures { MacroRefusals }
{}

/// The row `macros_stop`.
#[tactic(auto, using(crate::proofs::RowMacrosStop::is_computed))]
pub fn macros_stop()
    ensures { MacrosStop }
{}

/// The row `optional_formals`.
#[tactic(auto, using(crate::proofs::RowOptionalFormals::is_computed))]
pub fn optional_formals()
    ensures { OptionalFormals }
{}

/// The row `other_macros`.
#[tactic(auto, using(crate::proofs::RowOtherMacros::is_computed))]
pub fn other_macros()
    ensures { OtherMacros }
{}

/// The row `rest_and_keys`.
#[tactic(auto, using(crate::proofs::RowRestAndKeys::is_computed))]
pub fn rest_and_keys()
    ensures { RestAndKeys }
{}

/// The row `the_of_types`.
#[tactic(auto, using(crate::proofs::RowTheOfTypes::is_computed))]
pub fn the_of_types()
    ensures { TheOfTypes }
{}
