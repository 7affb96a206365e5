//! Accepted forms fit: what is known of a form in which no rule fails.
#![tactic(auto)]

ghost use Rattle.model_fitting.specs.Circular.{IsAcceptedWithTree};
ghost use Rattle.model_fitting.specs.Laws.{AcceptedGiveOnlyGiven, AcceptedFit, OriginsExist, GivenWhereDefinedGive, CheckedHaveTrees};
ghost use Rattle.model_eval.specs.ListsKeeping.{lists_keeping};
ghost use Rattle.model_eval.specs.PlacesKeeping.{places_keeping};

/// In a world whose functions give no stobj but those that they are given, a form in which no rule fails gives no stobj but
/// those in scope.
#[tactic(auto, using(crate::proofs::AcceptedLemmas::accepted_give_only_given))]
pub fn accepted_forms_give_only_what_they_are_given()
    ensures { AcceptedGiveOnlyGiven }
{}

/// The rules accept a function that gives a stobj that only its own call gives it. In its body's tree the stobj's name, which
/// has no variable, is NIL.
#[tactic(auto, using(crate::proofs::CircularLemmas::accepted_with_tree))]
pub fn circular_functions_are_accepted()
    ensures { IsAcceptedWithTree }
{}

/// A machine over forms that is begun on a form in which no rule fails, in a world whose functions were accepted, binds in each
/// turn what fits the names: with stobjs as lists, and in place.
#[tactic(auto, using(crate::proofs::TurnLemmas::accepted_fit))]
pub fn accepted_forms_fit()
    ensures lists { AcceptedFit lists_keeping }
    ensures in_place { AcceptedFit places_keeping }
{}

/// The worlds in which a world's functions were checked, as the law of accepted forms takes them.
#[tactic(auto, using(crate::proofs::OriginLemmas::origins_exist))]
pub fn threaded_worlds_have_origins()
    ensures { OriginsExist }
{}

/// In a threaded world functions give no stobj but those that they are given, where the functions that are defined do.
#[tactic(auto, using(crate::proofs::GivingLemmas::given_where_defined_give))]
pub fn functions_give_only_what_they_are_given()
    ensures { GivenWhereDefinedGive }
{}

/// Guards and bodies of functions have trees in the worlds in which they were checked.
#[tactic(auto, using(crate::proofs::FormalLemmas::checked_have_trees))]
pub fn checked_forms_have_trees()
    ensures { CheckedHaveTrees }
{}
