//! The evaluation of a form over live objects.

ghost use Rattle.std.specs.Prelude.{◌≡◌, ◌≢◌, ◌<◌, ◌-◌, Some, length, slice_get, IfOk};
ghost use Rattle.acl_forms.specs.Forms.{Grown};
ghost use Rattle.acl_list_keeper.specs.Sound as lists;
ghost use Rattle.acl_machine.specs.Views.{around};
ghost use Rattle.acl_terms.specs.declared.outcome.Stop.TheVariants as stop;
ghost use Rattle.acl_evaluate.specs.Ended.{IsRefused};
ghost use Rattle.acl_evaluate.specs.Evaluating.{IsWholeEnd};
ghost use Rattle.acl_pure.specs.Fitting.{Fits};
ghost use Rattle.acl_live_lists.specs.Live.{live_lists, AreLive, objects_bound};
ghost use Rattle.acl_live_lists.specs.Outcomes.{EvaluatesLive};

use acl_base::{Limits, TermId};
use acl_code::Terms;
use acl_engine::Outcome;
use acl_evaluate::{evaluate, refused};
use acl_heap::Heap;
use acl_list_keeper::ListKeeper;
use acl_list_scope::Binding;
use acl_machine::{Values, known_constants_are_whole};
use acl_syms::Symbols;
use acl_terms::Shown;
use acl_worlds::World;
use model_live_forms::live_forms_end;
use std::alloc::{AllocError, Global};

/// The binding before the last so many.
fn binding_before(bindings: &[Binding], done: usize) -> Binding
    requires { done < length bindings.now }
    ensures { slice_get bindings.now (length bindings.now - 1 - done) ≡ Some result }
{
    bindings[bindings.len() - 1 - done]
}

/// The objects in scope, the innermost first: what lies in the slots of a form over them.
#[tactic(auto, using(crate::proofs::ObjectLemmas::objects_none, crate::proofs::ObjectLemmas::objects_more, crate::proofs::ObjectLemmas::objects_all))]
fn live_values(alloc: Global, bindings: &[Binding]) -> Result<Values, AllocError>
    ensures { IfOk result (λ vs. vs ≡ objects_bound bindings.now) }
{
    let mut values = Values::new(alloc);
    for done in 0..bindings.len() {
        let binding = binding_before(bindings, done);
        values.push(Shown::Object(binding.variable))?;
    }
    Ok(values)
}

/// The outcome of a term in whose first slots the live objects lie, in their order. It is that of checked evaluation of every accepted
/// form over the live objects whose tree the term stands for, and the lists are those that it leaves, unless memory is refused. Then the
/// lists may be any that go with the world: who needs those from before keeps them.
#[tactic(auto, using(crate::proofs::EvaluateLemmas::evaluates_live, crate::proofs::EvaluateLemmas::live_there, crate::proofs::EvaluateLemmas::objects_whole, acl_pure::proofs::ApplyLemmas::surrounds_of, acl_pure::proofs::ApplyLemmas::fits_grown, acl_evaluate::proofs::EvaluateLemmas::refused_whole, acl_evaluate::proofs::EvaluateLemmas::refused_stop))]
pub fn evaluate_live(
    alloc: Global,
    keeper: &mut ListKeeper,
    world: &World,
    terms: &Terms,
    heap: &mut Heap,
    syms: &mut Symbols,
    term: TermId,
    used: u64,
    limits: Limits,
) -> Outcome
    requires fits { Fits terms.now heap.old world.now syms.old }
    requires live { AreLive keeper.old heap.old world.now (length syms.old.symbols) }
    ensures evaluates { result.stop ≢ Some stop.Memory → EvaluatesLive (around heap.old world.now terms.now syms.old limits.steps) (around heap.new world.now terms.now syms.new limits.steps) term (live_lists keeper.old) (live_lists keeper.new) used limits.depth result }
    ensures live { result.stop ≢ Some stop.Memory → AreLive keeper.new heap.new world.now (length syms.new.symbols) }
    ensures refused { result.stop ≡ Some stop.Memory → IsRefused used result }
    ensures keeper { lists.IsSound keeper.new.scoped keeper.new.ready heap.new world.now (length syms.new.symbols) }
    ensures fits { Fits terms.now heap.new world.now syms.new }
    ensures whole { IsWholeEnd syms.new heap.new result }
    ensures grows { Grown syms.old syms.new heap.old heap.new }
    ensures packages { syms.new.packages ≡ syms.old.packages }
{
    known_constants_are_whole();
    live_forms_end();
    match live_values(alloc, keeper.scoped.bindings.as_slice()) {
        Ok(values) => evaluate(
            alloc, keeper, world, terms, heap, syms, term, values, used, limits,
        ),
        Err(_) => refused(alloc, used),
    }
}
