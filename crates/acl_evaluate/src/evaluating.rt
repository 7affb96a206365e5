//! The evaluation of a term, over the lists in scope.

ghost use Rattle.std.specs.Prelude.{◌≡◌, ◌≢◌, [], Some, length, IfOk, OnOk};
ghost use Rattle.acl_forms.specs.Forms.{Grown};
ghost use Rattle.acl_list_keeper.specs.Sound as lists;
ghost use Rattle.acl_machine.specs.Cells.{AreWholeCells};
ghost use Rattle.acl_machine.specs.Steps.{IsSound};
ghost use Rattle.acl_machine.specs.Turns.{IsLate};
ghost use Rattle.acl_machine.specs.Views.{around};
ghost use Rattle.acl_terms.specs.declared.outcome.Stop.TheVariants as stop;
ghost use Rattle.acl_turns.specs.Surroundings.{Surrounds};
ghost use Rattle.acl_evaluate.specs.Ended.{IsRefused};
ghost use Rattle.acl_evaluate.specs.Evaluating.{lists_in, IsAtRest, Reaches, Evaluates, IsWholeEnd};

use crate::beginning::begun;
use crate::ending::{outcome_of, refused};
use acl_base::{Limits, TermId};
use acl_code::Terms;
use acl_engine::Outcome;
use acl_heap::Heap;
use acl_list_keeper::ListKeeper;
use acl_machine::{Machine, Values};
use acl_syms::Symbols;
use acl_turns::{may_run, run};
use acl_worlds::World;
use std::alloc::{AllocError, Global};

/// Turns a machine that has no form open to its end.
#[tactic(auto, using(crate::proofs::EvaluateLemmas::rests_kept, crate::proofs::EvaluateLemmas::reached, crate::proofs::EvaluateLemmas::rested))]
fn run_begun(
    alloc: Global,
    machine: &mut Machine,
    keeper: &mut ListKeeper,
    world: &World,
    terms: &Terms,
    heap: &mut Heap,
    syms: &mut Symbols,
    limit: u64,
) -> Result<(), AllocError>
    requires closed { machine.old.frames ≡ [] }
    requires sound { IsSound syms.old heap.old machine.old }
    requires surrounds { Surrounds syms.old heap.old world.now terms.now }
    requires keeper { lists.IsSound keeper.old.scoped keeper.old.ready heap.old world.now (length syms.old.symbols) }
    requires rests { IsAtRest keeper.old.scoped }
    ensures reaches { OnOk result (Reaches (around heap.old world.now terms.now syms.old limit) (around heap.new world.now terms.now syms.new limit) machine.old machine.new (lists_in keeper.old.scoped) (lists_in keeper.new.scoped)) }
    ensures rests { OnOk result (IsAtRest keeper.new.scoped) }
    ensures sound { OnOk result (IsSound syms.new heap.new machine.new) }
    ensures late { OnOk result (IsLate machine.new.control) }
    ensures keeper { lists.IsSound keeper.new.scoped keeper.new.ready heap.new world.now (length syms.new.symbols) }
    ensures grows { Grown syms.old syms.new heap.old heap.new }
    ensures packages { syms.new.packages ≡ syms.old.packages }
{
    may_run(machine, keeper, world, terms, heap, syms, limit);
    match run(alloc, machine, keeper, world, terms, heap, syms, limit) {
        Ok(()) => Ok(()),
        Err(error) => Err(error),
    }
}

/// What the machine ends with, unless memory is refused.
#[tactic(auto, using(crate::proofs::EvaluateLemmas::begun_sound, crate::proofs::EvaluateLemmas::evaluated, crate::proofs::EvaluateLemmas::whole_end, crate::proofs::EvaluateLemmas::end_told))]
fn run_term(
    alloc: Global,
    keeper: &mut ListKeeper,
    world: &World,
    terms: &Terms,
    heap: &mut Heap,
    syms: &mut Symbols,
    term: TermId,
    values: Values,
    used: u64,
    limits: Limits,
) -> Result<Outcome, AllocError>
    requires surrounds { Surrounds syms.old heap.old world.now terms.now }
    requires values { AreWholeCells syms.old heap.old values }
    requires keeper { lists.IsSound keeper.old.scoped keeper.old.ready heap.old world.now (length syms.old.symbols) }
    requires rests { IsAtRest keeper.old.scoped }
    ensures evaluates { IfOk result (λ o. Evaluates (around heap.old world.now terms.now syms.old limits.steps) (around heap.new world.now terms.now syms.new limits.steps) term values (lists_in keeper.old.scoped) (lists_in keeper.new.scoped) used limits.depth o) }
    ensures rests { OnOk result (IsAtRest keeper.new.scoped) }
    ensures whole { IfOk result (λ o. IsWholeEnd syms.new heap.new o) }
    ensures told { IfOk result (λ o. o.stop ≢ Some stop.Memory) }
    ensures keeper { lists.IsSound keeper.new.scoped keeper.new.ready heap.new world.now (length syms.new.symbols) }
    ensures grows { Grown syms.old syms.new heap.old heap.new }
    ensures packages { syms.new.packages ≡ syms.old.packages }
{
    let mut machine = begun(alloc, term, values, used, limits.depth);
    run_begun(
        alloc,
        &mut machine,
        keeper,
        world,
        terms,
        heap,
        syms,
        limits.steps,
    )?;
    match outcome_of(alloc, &machine) {
        Ok(outcome) => Ok(outcome),
        Err(error) => Err(error),
    }
}

/// The outcome of a term in whose first slots these values lie, over the lists in scope, which become those that it leaves: what the
/// machine over trees ends with, unless memory is refused. Then the keeper may be anywhere between.
#[tactic(auto, using(crate::proofs::EvaluateLemmas::refused_whole, crate::proofs::EvaluateLemmas::refused_stop))]
pub fn evaluate(
    alloc: Global,
    keeper: &mut ListKeeper,
    world: &World,
    terms: &Terms,
    heap: &mut Heap,
    syms: &mut Symbols,
    term: TermId,
    values: Values,
    used: u64,
    limits: Limits,
) -> Outcome
    requires surrounds { Surrounds syms.old heap.old world.now terms.now }
    requires values { AreWholeCells syms.old heap.old values }
    requires keeper { lists.IsSound keeper.old.scoped keeper.old.ready heap.old world.now (length syms.old.symbols) }
    requires rests { IsAtRest keeper.old.scoped }
    ensures evaluates { result.stop ≢ Some stop.Memory → Evaluates (around heap.old world.now terms.now syms.old limits.steps) (around heap.new world.now terms.now syms.new limits.steps) term values (lists_in keeper.old.scoped) (lists_in keeper.new.scoped) used limits.depth result }
    ensures rests { result.stop ≢ Some stop.Memory → IsAtRest keeper.new.scoped }
    ensures refused { result.stop ≡ Some stop.Memory → IsRefused used result }
    ensures whole { IsWholeEnd syms.new heap.new result }
    ensures keeper { lists.IsSound keeper.new.scoped keeper.new.ready heap.new world.now (length syms.new.symbols) }
    ensures grows { Grown syms.old syms.new heap.old heap.new }
    ensures packages { syms.new.packages ≡ syms.old.packages }
{
    match run_term(
        alloc, keeper, world, terms, heap, syms, term, values, used, limits,
    ) {
        Ok(outcome) => outcome,
        Err(_) => refused(alloc, used),
    }
}
