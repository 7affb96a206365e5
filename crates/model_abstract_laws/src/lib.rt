//! Laws of the logic value and of abstract evaluation.
#![tactic(auto)]

ghost use Rattle.model_abstract_laws.specs.Apart.{AreApart};
ghost use Rattle.model_abstract_laws.specs.Laws.{AbstractAgreesUntilLimit};
ghost use Rattle.model_abstract_laws.specs.Budgets.{IsSameAtLargerBudgets, AbstractBudgetsAgree};
ghost use Rattle.model_abstract_laws.specs.Counting.{AbstractCountsCalls};

/// The logic value is the same at every larger budget, and is one at most.
#[tactic(auto, using(crate::proofs::BudgetLemmas::is_same_at_larger_budgets))]
pub fn larger_budgets_give_the_same()
    ensures { IsSameAtLargerBudgets }
{}

/// An outcome of abstract evaluation, and the list of a new stobj, are the same at every larger budget.
#[tactic(auto, using(crate::proofs::AbstractBudgetLemmas::abstract_budgets_agree))]
pub fn abstract_budgets_agree()
    ensures { AbstractBudgetsAgree }
{}

/// A larger limit of calls or of open forms changes nothing in abstract evaluation, unless the smaller one was met.
#[tactic(auto, using(crate::proofs::LimitLemmas::abstract_agrees_until_limit))]
pub fn larger_abstract_limits_agree()
    ensures { AbstractAgreesUntilLimit }
{}

/// Where abstract evaluation has an outcome, calls never fall and never pass the limit; a stop at the limit has counted exactly
/// so many; and where no call is left, every list is as it was.
#[tactic(auto, using(crate::proofs::AbstractCountLemmas::abstract_counts_calls))]
pub fn abstract_calls_are_counted()
    ensures { AbstractCountsCalls }
{}

/// A single value where fields are wanted, an unknown symbol, and an abstract list with a symbol of an unknown package do not
/// correspond to anything.
#[tactic(auto, using(crate::proofs::ApartLemmas::are_apart))]
pub fn odd_lists_do_not_correspond()
    ensures { AreApart }
{}
