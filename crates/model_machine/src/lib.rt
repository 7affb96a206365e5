//! A machine of frames that evaluates core forms a turn at a time, whatever the stobjs are kept in. Definitions, and laws.
#![tactic(auto)]

ghost use Rattle.std.specs.Prelude.{ℕ};
ghost use Rattle.model_eval.specs.ListsKeeping.{lists_keeping};
ghost use Rattle.model_eval.specs.PlacesKeeping.{places_keeping};
ghost use Rattle.model_machine.specs.InPlace.{RunsInPlace, RunsOnLists};
ghost use Rattle.model_machine.specs.Laws.{KeepsOutcomes, AlwaysEnds};
ghost use Rattle.model_machine.specs.Writing.{WritesWhereItCounts};
ghost use Rattle.model_machine.specs.Cutting.{IsCutNow, KeepsOutcomesAtLimits, CountsOneAtMost};

/// A turn leaves the outcome of a machine what it is, where stobjs are kept as lists and where they are kept in place.
#[tactic(auto, using(crate::proofs::Same::keeps_outcomes))]
pub fn turns_keep_outcomes()
    ensures lists { KeepsOutcomes (lists_keeping {S = ℕ}) }
    ensures places { KeepsOutcomes (places_keeping {S = ℕ}) }
{}

/// Every machine ends, each turn leaves one turn less, and one that is begun on a form ends with the outcome of the form.
#[tactic(auto, using(crate::proofs::Ends::always_ends))]
pub fn machines_end()
    ensures lists { AlwaysEnds (lists_keeping {S = ℕ}) }
    ensures places { AlwaysEnds (places_keeping {S = ℕ}) }
{}

/// Where stobjs are kept in place and primitives write none: evaluation of a form, with no more calls than a machine that was
/// begun on it has counted, ends or stops in the state that the machine has, its frames closed. An export that it stops inside is
/// undone, and what any other wrote stays.
#[tactic(auto, using(crate::proofs::Steady::places_cut_now))]
pub fn machines_are_cut_evaluations()
    ensures places { IsCutNow (places_keeping {S = ℕ}) }
{}

/// At every limit that the calls have not passed, a machine stands for the same outcome as the machine that it came from.
#[tactic(auto, using(crate::proofs::Limits::keeps_outcomes_at_limits))]
pub fn turns_keep_outcomes_at_limits()
    ensures lists { KeepsOutcomesAtLimits (lists_keeping {S = ℕ}) }
    ensures places { KeepsOutcomesAtLimits (places_keeping {S = ℕ}) }
{}

/// A machine with stobjs in place ends with what checked evaluation in place gives, and at every moment its store is that of the
/// evaluation with no more calls than it has counted.
#[tactic(auto, using(crate::proofs::Placed::runs_in_place))]
pub fn machines_evaluate_in_place()
    ensures { RunsInPlace }
{}

/// The same machine with stobjs kept as lists ends with what checked evaluation gives.
#[tactic(auto, using(crate::proofs::Placed::runs_on_lists))]
pub fn machines_evaluate_on_lists()
    ensures { RunsOnLists }
{}

/// A turn counts one call at most, and none past the limit.
#[tactic(auto, using(crate::proofs::Limits::counts_one_at_most))]
pub fn turns_count_one_call()
    ensures lists { CountsOneAtMost (lists_keeping {S = ℕ}) }
    ensures places { CountsOneAtMost (places_keeping {S = ℕ}) }
{}

/// What is written in place is written in a turn that counts a call: any other leaves the lists and the symbols, but for a local
/// stobj that goes, and for an export that a stop undoes.
#[tactic(auto, using(crate::proofs::Quiet::writes_where_it_counts))]
pub fn turns_write_where_they_count()
    ensures { WritesWhereItCounts ℕ }
{}
