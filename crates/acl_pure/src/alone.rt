//! The evaluation of a term over words, no object being in scope.

ghost use Rattle.std.specs.Prelude.{◌≡◌, ◌≢◌, Some, length};
ghost use Rattle.acl_forms.specs.Forms.{AreWhole, Grown};
ghost use Rattle.acl_list_keeper.specs.Sound.{WorldFits};
ghost use Rattle.acl_machine.specs.Views.{around};
ghost use Rattle.acl_terms.specs.declared.outcome.Stop.TheVariants as stop;
ghost use Rattle.acl_turns.specs.Surroundings.{Surrounds};
ghost use Rattle.acl_evaluate.specs.Ended.{IsRefused};
ghost use Rattle.acl_evaluate.specs.Evaluating.{IsWholeEnd};
ghost use Rattle.acl_pure.specs.Alone.{EvaluatesAlone};

use acl_base::{Limits, TermId, Word};
use acl_code::Terms;
use acl_engine::Outcome;
use acl_evaluate::{evaluate, refused, values_of};
use acl_heap::Heap;
use acl_list_keeper::ListKeeper;
use acl_syms::Symbols;
use acl_worlds::World;
use std::alloc::Global;

/// The outcome of a term in whose first slots these words lie, with no object in scope.
#[tactic(auto, using(crate::proofs::AloneLemmas::nothing_in, crate::proofs::AloneLemmas::empty_rests, crate::proofs::AloneLemmas::values_whole, acl_evaluate::proofs::EvaluateLemmas::refused_whole, acl_evaluate::proofs::EvaluateLemmas::refused_stop))]
pub(crate) fn evaluate_alone(
    alloc: Global,
    world: &World,
    terms: &Terms,
    heap: &mut Heap,
    syms: &mut Symbols,
    term: TermId,
    words: &[Word],
    used: u64,
    limits: Limits,
) -> Outcome
    requires surrounds { Surrounds syms.old heap.old world.now terms.now }
    requires fits { WorldFits heap.old world.now (length syms.old.symbols) }
    requires words { AreWhole syms.old heap.old words.now }
    ensures evaluates { result.stop ≢ Some stop.Memory → EvaluatesAlone (around heap.old world.now terms.now syms.old limits.steps) (around heap.new world.now terms.now syms.new limits.steps) term words.now used limits.depth result }
    ensures refused { result.stop ≡ Some stop.Memory → IsRefused used result }
    ensures whole { IsWholeEnd syms.new heap.new result }
    ensures grows { Grown syms.old syms.new heap.old heap.new }
    ensures packages { syms.new.packages ≡ syms.old.packages }
{
    match values_of(alloc, words) {
        Ok(values) => {
            let mut keeper = ListKeeper::new(alloc);
            evaluate(
                alloc,
                &mut keeper,
                world,
                terms,
                heap,
                syms,
                term,
                values,
                used,
                limits,
            )
        }
        Err(_) => refused(alloc, used),
    }
}
