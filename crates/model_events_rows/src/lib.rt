//! Books of other events, each computed from the definitions: shapes, refusals in their order, counts. Written by
//! tools/rows.py from the files in rows/.
#![tactic(auto)]

ghost use Rattle.model_events_rows.specs.Rows.{Constants, CountsAtRefusals, Declarations, FunctionNames, FunctionShapes, Heads, ImproperEvents, KeysInOrder, Packages, StepsInEvents, ThreadRules};

/// The row `constants`.
#[tactic(auto, using(crate::proofs::RowConstants::is_computed))]
pub fn constants()
    ensures { Constants }
{}

/// The row `counts_at_refusals`.
#[tactic(auto, using(crate::proofs::RowCountsAtRefusals::is_computed))]
pub fn counts_at_refusals()
    ensures { CountsAtRefusals }
{}

/// The row `declarations`.
#[tactic(auto, using(crate::proofs::RowDeclarations::is_computed))]
pub fn declarations()
    ensures { Declarations }
{}

/// The row `function_names`.
#[tactic(auto, using(crate::proofs::RowFunctionNames::is_computed))]
pub fn function_names()
    ensures { FunctionNames }
{}

/// The row `function_shapes`.
#[tactic(auto, using(crate::proofs::RowFunctionShapes::is_computed))]
pub fn function_shapes()
    ensures { FunctionShapes }
{}

/// The row `heads`.
#[tactic(auto, using(crate::proofs::RowHeads::is_computed))]
pub fn heads()
    ensures { Heads }
{}

/// The row `improper_events`.
#[tactic(auto, using(crate::proofs::RowImproperEvents::is_computed))]
pub fn improper_events()
    ensures { ImproperEvents }
{}

/// The row `keys_in_order`.
#[tactic(auto, using(crate::proofs::RowKeysInOrder::is_computed))]
pub fn keys_in_order()
    ensures { KeysInOrder }
{}

/// The row `packages`.
#[tactic(auto, using(crate::proofs::RowPackages::is_computed))]
pub fn packages()
    ensures { Packages }
{}

/// The row `steps_in_events`.
#[tactic(auto, using(crate::proofs::RowStepsInEvents::is_computed))]
pub fn steps_in_events()
    ensures { StepsInEvents }
{}

/// The row `thread_rules`.
#[tactic(auto, using(crate::proofs::RowThreadRules::is_computed))]
pub fn thread_rules()
    ensures { ThreadRules }
{}
