//! Laws of evaluation.
#![tactic(auto)]

ghost use Rattle.model_eval_laws.specs.Laws.{AgreesUntilLimit, KeepsOutcomes};
ghost use Rattle.model_eval_laws.specs.Counting.{CountsCalls};
ghost use Rattle.model_eval_laws.specs.Cutting.{IsCut};
ghost use Rattle.model_eval_laws.specs.Opening.{OpensForms};
ghost use Rattle.model_eval_laws.specs.Scope.{LeavesOthers};
ghost use Rattle.model_eval_laws.specs.Words.{IsStobjLetWord};

/// A larger limit of calls or of open forms changes nothing, unless the smaller one was met.
#[tactic(auto, using(crate::proofs::LimitLemmas::agrees_until_limit))]
pub fn larger_limits_agree()
    ensures { AgreesUntilLimit }
{}

/// A world that grows keeps every outcome.
#[tactic(auto, using(crate::proofs::LimitLemmas::keeps_outcomes))]
pub fn growing_worlds_keep_outcomes()
    ensures { KeepsOutcomes }
{}

/// Calls never fall and never pass the limit; a stop at the limit has counted exactly so many; and where no call is left,
/// every list is as it was.
#[tactic(auto, using(crate::proofs::CountLemmas::counts_calls))]
pub fn calls_are_counted()
    ensures { CountsCalls }
{}

/// An evaluation does not depend on the stobjs that no variable has, and leaves them as they are.
#[tactic(auto, using(crate::proofs::FrameLemmas::leaves_others))]
pub fn other_stobjs_are_left()
    ensures { LeavesOthers }
{}

/// No more forms are open at once than the limit.
#[tactic(auto, using(crate::proofs::OpeningLemmas::opens_forms))]
pub fn open_forms_are_limited()
    ensures { OpensForms }
{}

/// An evaluation that is cut at a limit of calls is the beginning of the one that goes on.
#[tactic(auto, using(crate::proofs::CutLemmas::is_cut))]
pub fn cut_evaluations_come_before()
    ensures { IsCut }
{}

/// `STOBJ-LET` has the number that it is taken to have.
#[tactic(auto, using(crate::proofs::WordLemmas::is_stobj_let_word))]
pub fn stobj_let_is_named()
    ensures { IsStobjLetWord }
{}
