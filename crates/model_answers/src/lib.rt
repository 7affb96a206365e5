//! Accepted forms have in abstract evaluation the answers that they have in checked evaluation.
#![tactic(auto)]

ghost use Rattle.model_answers.specs.Expressions.{ExpressionsAnswer};
ghost use Rattle.model_answers.specs.Laws.{FormsAnswer};
ghost use Rattle.model_answers.specs.OnLists.{FormsAnswerOnLists};

/// What checked evaluation of an accepted form ends with, abstract evaluation ends with, where the obligations of abstract
/// stobjs hold of values of the logic, unless checked evaluation stops at a limit or inside an export.
#[tactic(auto, using(crate::proofs::LawLemmas::forms_answer))]
pub fn forms_answer()
    ensures { FormsAnswer }
{}

/// The same on lists that correspond, which correspond afterwards.
#[tactic(auto, using(crate::proofs::OnLists::forms_answer_on_lists))]
pub fn forms_answer_on_lists()
    ensures { FormsAnswerOnLists }
{}

/// The accepted form of a command is answered by abstract evaluation on lists that correspond, which correspond afterwards,
/// in a session and of a form as commands make them, unless the answer is a stop at a limit or inside an export.
#[tactic(auto, using(crate::proofs::Expressions::expressions_answer))]
pub fn expressions_answer()
    ensures { ExpressionsAnswer }
{}
