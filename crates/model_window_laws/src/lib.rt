//! What follows of the machine over trees: it has one end, and on an accepted form that is what checked evaluation gives.
#![tactic(auto)]

ghost use Rattle.std.specs.Prelude.{ℕ};
ghost use Rattle.model_eval.specs.ListsKeeping.{lists_keeping};
ghost use Rattle.model_eval.specs.PlacesKeeping.{places_keeping};
ghost use Rattle.model_window_laws.specs.Laws.{EndsOnce, AcceptedFormsEnd};

use model_fitting::accepted_forms_fit;
use model_window::{checked_rules_see_nil, machines_evaluate_trees};

/// A machine over trees that ends has one end.
#[tactic(auto, using(crate::proofs::EndLemmas::ends_once))]
pub fn machines_end_once()
    ensures lists { EndsOnce (lists_keeping {S = ℕ}) }
    ensures places { EndsOnce (places_keeping {S = ℕ}) }
{}

/// A machine that is begun on the tree of an accepted form ends with what checked evaluation of the form gives, and with nothing else.
#[tactic(auto, using(crate::proofs::EndLemmas::accepted_end))]
pub fn accepted_forms_end()
    ensures lists { AcceptedFormsEnd lists_keeping }
    ensures places { AcceptedFormsEnd places_keeping }
{
    machines_evaluate_trees();
    checked_rules_see_nil();
    accepted_forms_fit();
}
