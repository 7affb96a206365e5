//! Worked books, each computed from the definitions: from the bytes of a book to the bytes of its answers. Written by
//! tools/rows.py from the files in rows/.
#![tactic(auto)]

ghost use Rattle.model_books_rows.specs.Rows.{AbstractCaller, BadByte, BadDot, BadWords, CellsGivenBack, CommaOutside, EmptyInput, ExportUndone, FirstRules, GuardViolation, HeldCells, Hexadecimal, IdentityAbstraction, InPackage, LiteralTooWide, NarrowestLiteral, NestingLimit, NestingLimitAlone, OneStepShort, OpenString, PackageOfItsOwn, Primitives, Ratio, Refusals, StackMachine, StepsExactly, StobjBoundBesideAValue, StoppedBetweenUpdates, StrayClose, ThreeCommands, TooDeep, Unfinished, UnknownPackage, UserMacro, ValueAndStobj, WeightLimit, WidestInteger};

/// The row `abstract_caller`.
#[tactic(auto, using(crate::proofs::RowAbstractCaller::is_computed))]
pub fn abstract_caller()
    ensures { AbstractCaller }
{}

/// The row `bad_byte`.
#[tactic(auto, using(crate::proofs::RowBadByte::is_computed))]
pub fn bad_byte()
    ensures { BadByte }
{}

/// The row `bad_dot`.
#[tactic(auto, using(crate::proofs::RowBadDot::is_computed))]
pub fn bad_dot()
    ensures { BadDot }
{}

/// The row `bad_words`.
#[tactic(auto, using(crate::proofs::RowBadWords::is_computed))]
pub fn bad_words()
    ensures { BadWords }
{}

/// The row `cells_given_back`.
#[tactic(auto, using(crate::proofs::RowCellsGivenBack::is_computed))]
pub fn cells_given_back()
    ensures { CellsGivenBack }
{}

/// The row `comma_outside`.
#[tactic(auto, using(crate::proofs::RowCommaOutside::is_computed))]
pub fn comma_outside()
    ensures { CommaOutside }
{}

/// The row `empty_input`.
#[tactic(auto, using(crate::proofs::RowEmptyInput::is_computed))]
pub fn empty_input()
    ensures { EmptyInput }
{}

/// The row `export_undone`.
#[tactic(auto, using(crate::proofs::RowExportUndone::is_computed))]
pub fn export_undone()
    ensures { ExportUndone }
{}

/// The row `first_rules`.
#[tactic(auto, using(crate::proofs::RowFirstRules::is_computed))]
pub fn first_rules()
    ensures { FirstRules }
{}

/// The row `guard_violation`.
#[tactic(auto, using(crate::proofs::RowGuardViolation::is_computed))]
pub fn guard_violation()
    ensures { GuardViolation }
{}

/// The row `held_cells`.
#[tactic(auto, using(crate::proofs::RowHeldCells::is_computed))]
pub fn held_cells()
    ensures { HeldCells }
{}

/// The row `hexadecimal`.
#[tactic(auto, using(crate::proofs::RowHexadecimal::is_computed))]
pub fn hexadecimal()
    ensures { Hexadecimal }
{}

/// The row `identity_abstraction`.
#[tactic(auto, using(crate::proofs::RowIdentityAbstraction::is_computed))]
pub fn identity_abstraction()
    ensures { IdentityAbstraction }
{}

/// The row `in_package`.
#[tactic(auto, using(crate::proofs::RowInPackage::is_computed))]
pub fn in_package()
    ensures { InPackage }
{}

/// The row `literal_too_wide`.
#[tactic(auto, using(crate::proofs::RowLiteralTooWide::is_computed))]
pub fn literal_too_wide()
    ensures { LiteralTooWide }
{}

/// The row `narrowest_literal`.
#[tactic(auto, using(crate::proofs::RowNarrowestLiteral::is_computed))]
pub fn narrowest_literal()
    ensures { NarrowestLiteral }
{}

/// The row `nesting_limit`.
#[tactic(auto, using(crate::proofs::RowNestingLimit::is_computed))]
pub fn nesting_limit()
    ensures { NestingLimit }
{}

/// The row `nesting_limit_alone`.
#[tactic(auto, using(crate::proofs::RowNestingLimitAlone::is_computed))]
pub fn nesting_limit_alone()
    ensures { NestingLimitAlone }
{}

/// The row `one_step_short`.
#[tactic(auto, using(crate::proofs::RowOneStepShort::is_computed))]
pub fn one_step_short()
    ensures { OneStepShort }
{}

/// The row `open_string`.
#[tactic(auto, using(crate::proofs::RowOpenString::is_computed))]
pub fn open_string()
    ensures { OpenString }
{}

/// The row `package_of_its_own`.
#[tactic(auto, using(crate::proofs::RowPackageOfItsOwn::is_computed))]
pub fn package_of_its_own()
    ensures { PackageOfItsOwn }
{}

/// The row `primitives`.
#[tactic(auto, using(crate::proofs::RowPrimitives::is_computed))]
pub fn primitives()
    ensures { Primitives }
{}

/// The row `ratio`.
#[tactic(auto, using(crate::proofs::RowRatio::is_computed))]
pub fn ratio()
    ensures { Ratio }
{}

/// The row `refusals`.
#[tactic(auto, using(crate::proofs::RowRefusals::is_computed))]
pub fn refusals()
    ensures { Refusals }
{}

/// The row `stack_machine`.
#[tactic(auto, using(crate::proofs::RowStackMachine::is_computed))]
pub fn stack_machine()
    ensures { StackMachine }
{}

/// The row `steps_exactly`.
#[tactic(auto, using(crate::proofs::RowStepsExactly::is_computed))]
pub fn steps_exactly()
    ensures { StepsExactly }
{}

/// The row `stobj_bound_beside_a_value`.
#[tactic(auto, using(crate::proofs::RowStobjBoundBesideAValue::is_computed))]
pub fn stobj_bound_beside_a_value()
    ensures { StobjBoundBesideAValue }
{}

/// The row `stopped_between_updates`.
#[tactic(auto, using(crate::proofs::RowStoppedBetweenUpdates::is_computed))]
pub fn stopped_between_updates()
    ensures { StoppedBetweenUpdates }
{}

/// The row `stray_close`.
#[tactic(auto, using(crate::proofs::RowStrayClose::is_computed))]
pub fn stray_close()
    ensures { StrayClose }
{}

/// The row `three_commands`.
#[tactic(auto, using(crate::proofs::RowThreeCommands::is_computed))]
pub fn three_commands()
    ensures { ThreeCommands }
{}

/// The row `too_deep`.
#[tactic(auto, using(crate::proofs::RowTooDeep::is_computed))]
pub fn too_deep()
    ensures { TooDeep }
{}

/// The row `unfinished`.
#[tactic(auto, using(crate::proofs::RowUnfinished::is_computed))]
pub fn unfinished()
    ensures { Unfinished }
{}

/// The row `unknown_package`.
#[tactic(auto, using(crate::proofs::RowUnknownPackage::is_computed))]
pub fn unknown_package()
    ensures { UnknownPackage }
{}

/// The row `user_macro`.
#[tactic(auto, using(crate::proofs::RowUserMacro::is_computed))]
pub fn user_macro()
    ensures { UserMacro }
{}

/// The row `value_and_stobj`.
#[tactic(auto, using(crate::proofs::RowValueAndStobj::is_computed))]
pub fn value_and_stobj()
    ensures { ValueAndStobj }
{}

/// The row `weight_limit`.
#[tactic(auto, using(crate::proofs::RowWeightLimit::is_computed))]
pub fn weight_limit()
    ensures { WeightLimit }
{}

/// The row `widest_integer`.
#[tactic(auto, using(crate::proofs::RowWidestInteger::is_computed))]
pub fn widest_integer()
    ensures { WidestInteger }
{}
