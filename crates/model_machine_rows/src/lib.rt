//! Rows of evaluation in place.
#![tactic(auto)]

ghost use Rattle.model_machine_rows.specs.Rows.{AreRightInPlace};
ghost use Rattle.model_machine_rows.specs.Stopping.{StopsRestore, stopping_rows};
ghost use Rattle.model_eval_rows.specs.Counting.{counting_rows};
ghost use Rattle.model_eval_rows.specs.Fields.{array_rows, hash_rows};
ghost use Rattle.model_eval_rows.specs.Several.{child_rows, congruent_rows};
ghost use Rattle.model_eval_rows.specs.Abstract.{abstract_rows};
ghost use Rattle.model_eval_rows.specs.StackMachine.{machine_rows};
ghost use Rattle.model_eval_rows.specs.Nested.{export_rows, family_rows, counted_rows};

/// Rows of evaluation in place.
#[tactic(auto, using(crate::proofs::Computed::counting))]
pub fn counting_in_place()
    ensures { AreRightInPlace counting_rows }
{}

/// Rows of evaluation in place.
#[tactic(auto, using(crate::proofs::Computed::arrays))]
pub fn arrays_in_place()
    ensures { AreRightInPlace array_rows }
{}

/// Rows of evaluation in place.
#[tactic(auto, using(crate::proofs::Computed::hash_fields))]
pub fn hash_fields_in_place()
    ensures { AreRightInPlace hash_rows }
{}

/// Rows of evaluation in place.
#[tactic(auto, using(crate::proofs::Computed::children))]
pub fn children_in_place()
    ensures { AreRightInPlace child_rows }
{}

/// Rows of evaluation in place.
#[tactic(auto, using(crate::proofs::Computed::congruent))]
pub fn congruent_in_place()
    ensures { AreRightInPlace congruent_rows }
{}

/// Rows of evaluation in place.
#[tactic(auto, using(crate::proofs::Computed::abstract_stobjs))]
pub fn abstract_stobjs_in_place()
    ensures { AreRightInPlace abstract_rows }
{}

/// Rows of evaluation in place.
#[tactic(auto, using(crate::proofs::Computed::machine))]
pub fn machine_in_place()
    ensures { AreRightInPlace machine_rows }
{}

/// Rows of evaluation in place.
#[tactic(auto, using(crate::proofs::Computed::exports))]
pub fn exports_in_place()
    ensures { AreRightInPlace export_rows }
{}

/// Rows of evaluation in place.
#[tactic(auto, using(crate::proofs::Computed::family))]
pub fn family_in_place()
    ensures { AreRightInPlace family_rows }
{}

/// Rows of evaluation in place.
#[tactic(auto, using(crate::proofs::Computed::counted))]
pub fn counted_in_place()
    ensures { AreRightInPlace counted_rows }
{}

/// Rows of exports that stop inside after writes: with lists and in place the stobj is as it was at the export's call, and in
/// the end no store remembers anything.
#[tactic(auto, using(crate::proofs::Computed::stopping))]
pub fn stops_restore()
    ensures { StopsRestore stopping_rows }
{}
