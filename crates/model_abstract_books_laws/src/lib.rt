//! Laws of commands as abstract evaluation answers them.
#![tactic(auto)]

ghost use Rattle.model_abstract_books_laws.specs.Laws.{AnswersAreDetermined, AnswersKeepLists, AnswersCountWithin};

/// An answer is the same at every larger budget, and is one at most.
#[tactic(auto, using(crate::proofs::BudgetLemmas::answers_are_determined))]
pub fn abstract_answers_are_determined()
    ensures { AnswersAreDetermined }
{}

/// Only an evaluation changes a list that is there; an event only adds, and a refusal keeps all.
#[tactic(auto, using(crate::proofs::AnswerLemmas::answers_keep_lists))]
pub fn abstract_answers_keep_lists()
    ensures { AnswersKeepLists }
{}

/// No answer counts more calls than the limit.
#[tactic(auto, using(crate::proofs::AnswerLemmas::answers_count_within))]
pub fn abstract_answers_count_within()
    ensures { AnswersCountWithin }
{}
