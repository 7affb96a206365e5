//! Uses of macros of the world.

ghost use Rattle.std.specs.Prelude.{◌≡◌, ◌≤◌, length, IfOk, IfErr};
ghost use Rattle.acl_base.specs.Limits.{AreLimits};
ghost use Rattle.model_terms.specs.Faults.{formal_names};
ghost use Rattle.model_expansion.specs.Expansion as expansion;
ghost use Rattle.acl_forms.specs.Forms.{Grown, AreWhole};
ghost use Rattle.model_objects.specs.Named.{Knows};
ghost use Rattle.model_expansion_parts.specs.Known.{KnowsFormals, KnowsMade};
ghost use Rattle.acl_layers.specs.Layers.{seen_made};
ghost use Rattle.acl_expand.specs.Refusals.{IsTold};
ghost use Rattle.model_expansion.specs.Forms.{elements};
ghost use Rattle.acl_heap.specs.Objects.{object_of, Lies};
ghost use Rattle.acl_terms.specs.Definitions.{seen_formals, formals_reach};
ghost use Rattle.acl_expand.specs.Looks.{setting_at};
ghost use Rattle.acl_worlds.specs.Contents.{seen_world, WorldLies};
ghost use Rattle.acl_engine.specs.Outcomes.{macro_value, seen_body, IsMacroOf, words_at};
ghost use Rattle.acl_expand.specs.Progresses.{seen_progress, EndsMade, IsWithin};

use crate::progress::{Progress, Refused, no_stop};
use crate::settling::again;
use acl_actuals::macro_values;
use acl_base::{Limits, SymId, Word};
use acl_engine::Engine;
use acl_heap::Heap;
use acl_layers::{Made, is_true_list};
use acl_syms::Symbols;
use acl_terms::{ExpandFault, Macro};
use acl_worlds::World;
use std::alloc::Global;

/// What the body of a macro makes, over a value of each formal.
pub fn evaluated<E: Engine>(
    world: &World,
    heap: &mut Heap,
    syms: &mut Symbols,
    engine: &mut E,
    limits: Limits,
    progress: &mut Progress,
    definition: &Macro,
    values: &[Word],
) -> Result<Made, Refused>
    requires fits { E.fits engine.old heap.old world.now syms.old }
    requires world { WorldLies heap.old world.now }
    requires definition { IsMacroOf world.now definition.now }
    requires values { AreWhole syms.old heap.old values.now }
    requires enough { 2 ≤ length syms.old.symbols }
    requires count { length values.now ≡ length (formal_names (seen_formals heap.old definition.now.formals)) }
    requires limits { AreLimits limits.steps limits.depth }
    requires counts { IsWithin progress.old limits.steps }
    ensures grows { Grown syms.old syms.new heap.old heap.new }
    ensures packages { syms.new.packages ≡ syms.old.packages }
    ensures live { E.live engine.new ≡ E.live engine.old }
    ensures fits { E.fits engine.new heap.new world.now syms.new }
    ensures counts { IsWithin progress.new limits.steps }
    ensures known { IfOk result (λ m. KnowsMade (length syms.new.symbols) (seen_made heap.new m)) }
    ensures told { IfErr result IsTold }
    ensures ends { EndsMade heap.new (seen_progress syms.new.symbols progress.new) result (expansion.again (seen_progress syms.old.symbols progress.old) (macro_value (seen_world heap.old world.now) syms.old limits.steps limits.depth (seen_formals heap.old definition.now.formals) (seen_body heap.old definition.now) (words_at heap.old values.now) progress.old.calls)) }
{
    let used = progress.calls;
    let outcome = engine.apply(world, heap, syms, definition, values, used, limits);
    match again(heap, syms, outcome, progress) {
        Err(refused) => Err(refused),
        Ok(made) => Ok(made),
    }
}

/// What a use of a macro of the world makes that was counted.
#[tactic(auto, using(crate::proofs::EndLemmas::no_elements, crate::proofs::EndLemmas::no_values, crate::proofs::EndLemmas::with_values, crate::proofs::KnownLemmas::memory_told))]
pub fn entered<E: Engine>(
    alloc: Global,
    world: &World,
    heap: &mut Heap,
    syms: &mut Symbols,
    engine: &mut E,
    limits: Limits,
    progress: &mut Progress,
    head: SymId,
    definition: &Macro,
    d: Word,
) -> Result<Made, Refused>
    requires fits { E.fits engine.old heap.old world.now syms.old }
    requires world { WorldLies heap.old world.now }
    requires definition { IsMacroOf world.now definition.now }
    requires formals { formals_reach definition.now.formals ≤ length heap.old }
    requires word { Lies heap.old d }
    requires enough { 2 ≤ length syms.old.symbols }
    requires defaults { KnowsFormals (length syms.old.symbols) (seen_formals heap.old definition.now.formals) }
    requires known { Knows (length syms.old.symbols) (object_of heap.old d) }
    requires limits { AreLimits limits.steps limits.depth }
    requires counts { IsWithin progress.old limits.steps }
    ensures grows { Grown syms.old syms.new heap.old heap.new }
    ensures packages { syms.new.packages ≡ syms.old.packages }
    ensures live { E.live engine.new ≡ E.live engine.old }
    ensures fits { E.fits engine.new heap.new world.now syms.new }
    ensures counts { IsWithin progress.new limits.steps }
    ensures known { IfOk result (λ m. KnowsMade (length syms.new.symbols) (seen_made heap.new m)) }
    ensures told { IfErr result IsTold }
    ensures ends { EndsMade heap.new (seen_progress syms.new.symbols progress.new) result (expansion.used (setting_at heap.old world.now syms.old limits.steps limits.depth) head.0 (seen_formals heap.old definition.now.formals) (seen_body heap.old definition.now) (elements (object_of heap.old d)) (seen_progress syms.old.symbols progress.old)) }
{
    if !is_true_list(heap, d) {
        return Err(no_stop(ExpandFault::BadShape { head }));
    }
    match macro_values(alloc, heap, syms, &definition.formals, d)? {
        None => Err(no_stop(ExpandFault::MacroArgs { head })),
        Some(values) => {
            match evaluated(
                world,
                heap,
                syms,
                engine,
                limits,
                progress,
                definition,
                values.as_slice(),
            ) {
                Err(refused) => Err(refused),
                Ok(made) => Ok(made),
            }
        }
    }
}
