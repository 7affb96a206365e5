//! The rules at work: what the definitions give for small forms, computed, beside what was worked out by hand.
#![tactic(auto)]

ghost use Rattle.model_terms_rows.specs.Examples.{AreRight};
ghost use Rattle.model_terms_rows.specs.Calls.{stobj_positions, kept_back};
ghost use Rattle.model_terms_rows.specs.Values.{misplaced, unequal};
ghost use Rattle.model_terms_rows.specs.Bindings.{lets, several_values};
ghost use Rattle.model_terms_rows.specs.Children.{accepted_children, refused_children, refused_parts};
ghost use Rattle.model_terms_rows.specs.Locals.{local_stobjs};
ghost use Rattle.model_terms_rows.specs.Modes.{macros, functions_that_do_not_run};
ghost use Rattle.model_terms_rows.specs.Cliques.{AreAdmitted, rounds_examples, head_examples, unrunnable_examples, AreMacros, macro_examples, AreConstants, AreExpressions, AreOutputs};

#[tactic(auto, using(crate::proofs::Computed::stobj_positions_are_right))]
pub fn stobj_positions()
    ensures { AreRight stobj_positions }
{}

#[tactic(auto, using(crate::proofs::Computed::kept_back_are_right))]
pub fn kept_back()
    ensures { AreRight kept_back }
{}

#[tactic(auto, using(crate::proofs::Computed::misplaced_are_right))]
pub fn misplaced()
    ensures { AreRight misplaced }
{}

#[tactic(auto, using(crate::proofs::Computed::unequal_are_right))]
pub fn unequal()
    ensures { AreRight unequal }
{}

#[tactic(auto, using(crate::proofs::Computed::lets_are_right))]
pub fn lets()
    ensures { AreRight lets }
{}

#[tactic(auto, using(crate::proofs::Computed::several_values_are_right))]
pub fn several_values()
    ensures { AreRight several_values }
{}

#[tactic(auto, using(crate::proofs::Computed::accepted_children_are_right))]
pub fn accepted_children()
    ensures { AreRight accepted_children }
{}

#[tactic(auto, using(crate::proofs::Computed::refused_children_are_right))]
pub fn refused_children()
    ensures { AreRight refused_children }
{}

#[tactic(auto, using(crate::proofs::Computed::refused_parts_are_right))]
pub fn refused_parts()
    ensures { AreRight refused_parts }
{}

#[tactic(auto, using(crate::proofs::Computed::local_stobjs_are_right))]
pub fn local_stobjs()
    ensures { AreRight local_stobjs }
{}

#[tactic(auto, using(crate::proofs::Computed::macros_are_right))]
pub fn macros()
    ensures { AreRight macros }
{}

#[tactic(auto, using(crate::proofs::Computed::functions_that_do_not_run_are_right))]
pub fn functions_that_do_not_run()
    ensures { AreRight functions_that_do_not_run }
{}

#[tactic(auto, using(crate::proofs::ComputedCliques::rounds_are_right))]
pub fn rounds()
    ensures { AreAdmitted rounds_examples }
{}

#[tactic(auto, using(crate::proofs::ComputedCliques::heads_are_right))]
pub fn heads()
    ensures { AreAdmitted head_examples }
{}

#[tactic(auto, using(crate::proofs::ComputedCliques::unrunnable_are_right))]
pub fn beside_functions_that_do_not_run()
    ensures { AreAdmitted unrunnable_examples }
{}

#[tactic(auto, using(crate::proofs::ComputedCliques::macros_are_right))]
pub fn whole_macros()
    ensures { AreMacros macro_examples }
{}

#[tactic(auto, using(crate::proofs::ComputedCliques::constants_are_right))]
pub fn constants()
    ensures { AreConstants }
{}

#[tactic(auto, using(crate::proofs::ComputedCliques::outputs_are_right))]
pub fn outputs()
    ensures { AreOutputs }
{}

#[tactic(auto, using(crate::proofs::ComputedCliques::expressions_are_right))]
pub fn expressions()
    ensures { AreExpressions }
{}
