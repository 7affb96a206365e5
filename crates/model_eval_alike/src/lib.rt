//! Evaluation on stobjs that stand for one live stobj: the same values, stops and counts, and stobjs that do again.
#![tactic(auto)]

ghost use Rattle.std.specs.Ordering.{nat_cmp};
ghost use Rattle.model_prims.specs.Kinds.{by_name, by_number};
ghost use Rattle.model_lists.specs.Normal.{name_cmp};
ghost use Rattle.model_eval_alike.specs.FunctionLaws.{FunctionsAreAlike};
ghost use Rattle.model_eval_alike.specs.Laws.{IsLikeness, CanonicalStobjs, EvaluatesAlike};

/// No function of a stobj tells lists apart that stand for one stobj, and what it writes has the fields of the layout.
#[tactic(auto, using(crate::proofs::StandingLemmas::named_functions, crate::proofs::StandingLemmas::numbered_functions))]
pub fn functions_are_alike_on_alike_lists()
    ensures named { FunctionsAreAlike by_name name_cmp }
    ensures numbered { FunctionsAreAlike by_number nat_cmp }
{}

/// Being alike is an equivalence.
#[tactic(auto, using(crate::proofs::ObjectLemmas::is_likeness))]
pub fn likeness_is_an_equivalence()
    ensures named { IsLikeness name_cmp }
    ensures numbered { IsLikeness nat_cmp }
{}

/// Canonical lists stand for all stobjs that are alike.
#[tactic(auto, using(crate::proofs::ObjectLemmas::canonical_stobjs_stand))]
pub fn canonical_stobjs_stand_for_all_alike()
    ensures { CanonicalStobjs }
{}

/// Checked evaluation does not tell stobjs apart that are alike.
#[tactic(auto, using(crate::proofs::EvaluationLemmas::evaluates_alike))]
pub fn evaluation_is_alike_on_alike_stobjs()
    ensures { EvaluatesAlike }
{}
