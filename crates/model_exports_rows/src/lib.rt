//! Books that stop inside an export, each computed from the definitions: the stobj is as it was at the export's call. Written by
//! tools/rows.py from the files in rows/.
#![tactic(auto)]

ghost use Rattle.model_exports_rows.specs.Rows.{ChildrenInside, DepthInside, ExportInAConsumer, ExportInAnExport, GuardInside, LargeInside, RangeInside, StepsAtTheEnd, StepsAtTheExecCall, StepsInTheGuard, StepsInside, StopsInMacrosAndConstants};

/// The row `children_inside`.
#[tactic(auto, using(crate::proofs::RowChildrenInside::is_computed))]
pub fn children_inside()
    ensures { ChildrenInside }
{}

/// The row `depth_inside`.
#[tactic(auto, using(crate::proofs::RowDepthInside::is_computed))]
pub fn depth_inside()
    ensures { DepthInside }
{}

/// The row `export_in_a_consumer`.
#[tactic(auto, using(crate::proofs::RowExportInAConsumer::is_computed))]
pub fn export_in_a_consumer()
    ensures { ExportInAConsumer }
{}

/// The row `export_in_an_export`.
#[tactic(auto, using(crate::proofs::RowExportInAnExport::is_computed))]
pub fn export_in_an_export()
    ensures { ExportInAnExport }
{}

/// The row `guard_inside`.
#[tactic(auto, using(crate::proofs::RowGuardInside::is_computed))]
pub fn guard_inside()
    ensures { GuardInside }
{}

/// The row `large_inside`.
#[tactic(auto, using(crate::proofs::RowLargeInside::is_computed))]
pub fn large_inside()
    ensures { LargeInside }
{}

/// The row `range_inside`.
#[tactic(auto, using(crate::proofs::RowRangeInside::is_computed))]
pub fn range_inside()
    ensures { RangeInside }
{}

/// The row `steps_at_the_end`.
#[tactic(auto, using(crate::proofs::RowStepsAtTheEnd::is_computed))]
pub fn steps_at_the_end()
    ensures { StepsAtTheEnd }
{}

/// The row `steps_at_the_exec_call`.
#[tactic(auto, using(crate::proofs::RowStepsAtTheExecCall::is_computed))]
pub fn steps_at_the_exec_call()
    ensures { StepsAtTheExecCall }
{}

/// The row `steps_in_the_guard`.
#[tactic(auto, using(crate::proofs::RowStepsInTheGuard::is_computed))]
pub fn steps_in_the_guard()
    ensures { StepsInTheGuard }
{}

/// The row `steps_inside`.
#[tactic(auto, using(crate::proofs::RowStepsInside::is_computed))]
pub fn steps_inside()
    ensures { StepsInside }
{}

/// The row `stops_in_macros_and_constants`.
#[tactic(auto, using(crate::proofs::RowStopsInMacrosAndConstants::is_computed))]
pub fn stops_in_macros_and_constants()
    ensures { StopsInMacrosAndConstants }
{}
