//! Rows of the machine over trees, computed.
#![tactic(auto)]

ghost use Rattle.model_window_rows.specs.Fitting.{TheyFit};
ghost use Rattle.model_window_rows.specs.Rows.{AreRightByTurns};
ghost use Rattle.model_eval_rows.specs.Counting.{counting_rows};
ghost use Rattle.model_eval_rows.specs.Several.{child_rows, congruent_rows};
ghost use Rattle.model_eval_rows.specs.Abstract.{abstract_rows};
ghost use Rattle.model_eval_rows.specs.StackMachine.{machine_rows};
ghost use Rattle.model_eval_rows.specs.Nested.{export_rows, family_rows, counted_rows};

/// Calls and limits, guards, several values, and a local stobj.
#[tactic(auto, using(crate::proofs::Computed::counting))]
pub fn counting_by_turns()
    ensures { AreRightByTurns counting_rows }
{}

/// Children that are bound, and stops at each step.
#[tactic(auto, using(crate::proofs::Computed::children))]
pub fn children_by_turns()
    ensures { AreRightByTurns child_rows }
{}

/// Functions called on congruent stobjs.
#[tactic(auto, using(crate::proofs::Computed::congruent))]
pub fn congruent_by_turns()
    ensures { AreRightByTurns congruent_rows }
{}

/// Abstract stobjs.
#[tactic(auto, using(crate::proofs::Computed::abstract_stobjs))]
pub fn abstract_stobjs_by_turns()
    ensures { AreRightByTurns abstract_rows }
{}

/// A stack machine.
#[tactic(auto, using(crate::proofs::Computed::machine))]
pub fn machine_by_turns()
    ensures { AreRightByTurns machine_rows }
{}

/// Exports that call one another.
#[tactic(auto, using(crate::proofs::Computed::exports))]
pub fn exports_by_turns()
    ensures { AreRightByTurns export_rows }
{}

/// Children of children.
#[tactic(auto, using(crate::proofs::Computed::family))]
pub fn family_by_turns()
    ensures { AreRightByTurns family_rows }
{}

/// Counts inside and outside exports.
#[tactic(auto, using(crate::proofs::Computed::counted))]
pub fn counted_by_turns()
    ensures { AreRightByTurns counted_rows }
{}

/// What is bound fits in each turn.
#[tactic(auto, using(crate::proofs::Fitted::counting_fit))]
pub fn counting_fit()
    ensures { TheyFit counting_rows }
{}

/// What is bound fits in each turn.
#[tactic(auto, using(crate::proofs::Fitted::children_fit))]
pub fn children_fit()
    ensures { TheyFit child_rows }
{}

/// What is bound fits in each turn.
#[tactic(auto, using(crate::proofs::Fitted::congruent_fit))]
pub fn congruent_fit()
    ensures { TheyFit congruent_rows }
{}

/// What is bound fits in each turn.
#[tactic(auto, using(crate::proofs::Fitted::abstract_stobjs_fit))]
pub fn abstract_stobjs_fit()
    ensures { TheyFit abstract_rows }
{}

/// What is bound fits in each turn.
#[tactic(auto, using(crate::proofs::Fitted::machine_fit))]
pub fn machine_fit()
    ensures { TheyFit machine_rows }
{}

/// What is bound fits in each turn.
#[tactic(auto, using(crate::proofs::Fitted::exports_fit))]
pub fn exports_fit()
    ensures { TheyFit export_rows }
{}

/// What is bound fits in each turn.
#[tactic(auto, using(crate::proofs::Fitted::family_fit))]
pub fn family_fit()
    ensures { TheyFit family_rows }
{}

/// What is bound fits in each turn.
#[tactic(auto, using(crate::proofs::Fitted::counted_fit))]
pub fn counted_fit()
    ensures { TheyFit counted_rows }
{}
