//! A machine over trees, whose values lie on one stack: its turn is that of the machine over forms. Definitions, and laws.
#![tactic(auto)]

ghost use Rattle.std.specs.Prelude.{ℕ};
ghost use Rattle.model_eval.specs.ListsKeeping.{lists_keeping};
ghost use Rattle.model_eval.specs.PlacesKeeping.{places_keeping};
ghost use Rattle.model_window.specs.Closing.{IsCutNow};
ghost use Rattle.model_window.specs.Tables.{TablesHold, NamesTell};
ghost use Rattle.model_window.specs.Laws.{TakesTurns, ChecksSeeNil, BeginsAlike, EndsAlike, LeadsAlike, EvaluatesTrees};

/// A machine over trees takes the turns of the machine over forms that it stands for.
#[tactic(auto, using(crate::proofs::TurnLemmas::takes_turns))]
pub fn machines_take_turns()
    ensures lists { TakesTurns (lists_keeping {S = ℕ}) }
    ensures places { TakesTurns (places_keeping {S = ℕ}) }
{}

/// The rules of checked evaluation meet the condition on NIL.
#[tactic(auto, using(crate::proofs::TurnLemmas::checks_see_nil))]
pub fn checked_rules_see_nil()
    ensures lists { ChecksSeeNil lists_keeping }
    ensures places { ChecksSeeNil places_keeping }
{}

/// Machines that are begun on a tree and on its form stand for one another.
#[tactic(auto, using(crate::proofs::TurnLemmas::begin_alike))]
pub fn machines_begin_alike()
    ensures lists { BeginsAlike (lists_keeping {S = ℕ}) }
    ensures places { BeginsAlike (places_keeping {S = ℕ}) }
{}

/// A machine over trees ends when the machine over forms ends that it stands for, and with its outcome.
#[tactic(auto, using(crate::proofs::TurnLemmas::end_alike))]
pub fn machines_end_alike()
    ensures lists { EndsAlike (lists_keeping {S = ℕ}) }
    ensures places { EndsAlike (places_keeping {S = ℕ}) }
{}

/// Where turns lead to a machine over trees, as many lead to a machine over forms that it stands for.
#[tactic(auto, using(crate::proofs::WholeLemmas::lead_alike))]
pub fn turns_lead_alike()
    ensures lists { LeadsAlike (lists_keeping {S = ℕ}) }
    ensures places { LeadsAlike (places_keeping {S = ℕ}) }
{}

/// A machine that is begun on the tree of a form ends with what evaluation of the form gives.
#[tactic(auto, using(crate::proofs::WholeLemmas::evaluates_trees))]
pub fn machines_evaluate_trees()
    ensures lists { EvaluatesTrees (lists_keeping {S = ℕ}) }
    ensures places { EvaluatesTrees (places_keeping {S = ℕ}) }
{}

/// The table of a world holds the trees of its functions.
#[tactic(auto, using(crate::proofs::TableLemmas::tables_hold))]
pub fn tables_hold_trees()
    ensures { TablesHold }
{}

/// Where stobjs are kept in place and primitives write none: evaluation of a form, with no more calls than a machine that was
/// begun on its tree has counted, ends or stops in the state that the machine has, its frames closed.
#[tactic(auto, using(crate::proofs::CutLemmas::places_cut))]
pub fn machines_are_cut_evaluations()
    ensures places { IsCutNow (places_keeping {S = ℕ}) }
{}

/// A world whose names stand first among those of another is an earlier one.
#[tactic(auto, using(crate::proofs::TableLemmas::names_tell))]
pub fn names_tell_earlier_worlds()
    ensures { NamesTell }
{}
