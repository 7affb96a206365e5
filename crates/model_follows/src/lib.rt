//! The logic follows checked evaluation, and what that stands on: what calls of the logic cost, and which symbols are no matter.
#![tactic(auto)]

ghost use Rattle.model_follows.specs.Abstract.{LogicFollowsAbstract};
ghost use Rattle.model_follows.specs.AbstractLists.{LogicFollowsAbstractOnLists};
ghost use Rattle.model_follows.specs.Corresponding.{LogicFollowsOnLists};
ghost use Rattle.model_follows.specs.CostLaw.{CallsCost, CallsEnd, FormsCost};
ghost use Rattle.model_follows.specs.Example.{IsExampleFollowed};
ghost use Rattle.model_follows.specs.Follows.{LogicFollows};
ghost use Rattle.model_follows.specs.PartLaw.{PartsEnd};
ghost use Rattle.model_follows.specs.SymbolLaw.{SymbolsNoMatter};

/// The logic's value of an accepted form is what checked evaluation gives, symbols by name.
#[tactic(auto, using(crate::proofs::LawLemmas::logic_follows))]
pub fn logic_follows()
    ensures { LogicFollows }
{}

/// The same on lists that correspond, which correspond afterwards.
#[tactic(auto, using(crate::proofs::ListLemmas::follows_on_lists))]
pub fn logic_follows_on_lists()
    ensures { LogicFollowsOnLists }
{}

/// A value of the logic costs as many calls within every budget that has room for them, from any start.
#[tactic(auto, using(crate::proofs::LaterLemmas::calls_cost))]
pub fn calls_cost()
    ensures { CallsCost }
{}

/// The same of a form.
#[tactic(auto, using(crate::proofs::LaterLemmas::forms_cost))]
pub fn forms_cost()
    ensures { FormsCost }
{}

/// What is asked of a world holds of one with a stobj, a child and a function that writes the child.
#[tactic(auto, using(crate::proofs::ExampleLemmas::example_followed))]
pub fn a_world_is_followed()
    ensures { IsExampleFollowed }
{}

/// A value that a call has within some evaluation of the logic, it has alone.
#[tactic(auto, using(crate::proofs::EarlierLemmas::calls_end))]
pub fn calls_end()
    ensures { CallsEnd }
{}

/// The same where stobjs may be abstract: in the logic an abstract stobj is an abstract list that corresponds to the list of
/// checked evaluation, before and afterwards, where what the admission of the stobj proved holds of values.
#[tactic(auto, using(crate::proofs::AbstractLemmas::logic_follows_abstract))]
pub fn logic_follows_abstract()
    ensures { LogicFollowsAbstract }
{}

/// What a call of the logic ends with does not depend on the symbols that a book has beside those of the world.
#[tactic(auto, using(crate::proofs::SymbolLemmas::symbols_no_matter))]
pub fn symbols_no_matter()
    ensures { SymbolsNoMatter }
{}

/// The same where stobjs may be abstract, on lists that correspond, which correspond afterwards.
#[tactic(auto, using(crate::proofs::AbstractListLemmas::follows_abstract_on_lists))]
pub fn logic_follows_abstract_on_lists()
    ensures { LogicFollowsAbstractOnLists }
{}

/// Where a call or an `IF` ends in the logic, its parts end, and a primitive gives its value.
#[tactic(auto, using(crate::proofs::PartLemmas::parts_end))]
pub fn parts_end()
    ensures { PartsEnd }
{}
