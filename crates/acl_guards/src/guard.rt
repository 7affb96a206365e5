//! All that a guard asks.

ghost use Rattle.std.specs.Prelude.{◌≡◌, ◌≤◌, ◌<◌, length, IfOk, IfErr};
ghost use Rattle.acl_base.specs.Limits.{AreLimits};
ghost use Rattle.model_expansion.specs.Layers as layers;
ghost use Rattle.model_expansion.specs.Expansion as expansion;
ghost use Rattle.model_expansion_parts.specs.Known.{KnowsForm, KnowsSupplies};
ghost use Rattle.model_expansion_forms.specs.Rows.{AreKnownItems};
ghost use Rattle.acl_forms.specs.Forms.{Grown};
ghost use Rattle.model_terms.specs.Cores as cores;
ghost use Rattle.model_expansion.specs.TypeTerms.{false_core};
ghost use Rattle.acl_types.specs.Shapes.{IsCore};
ghost use Rattle.acl_terms.specs.Forms.{seen_core, CoreLies};
ghost use Rattle.acl_worlds.specs.Contents.{seen_world, WorldLies};
ghost use Rattle.acl_declare.specs.Said.{seen_items, items_reach};
ghost use Rattle.acl_expand.specs.Looks.{setting_at};
ghost use Rattle.acl_expand.specs.Refusals.{IsTold};
ghost use Rattle.acl_expand.specs.Progresses.{seen_progress, IsWithin};
ghost use Rattle.acl_growing.specs.Ends.{EndsCore};

use crate::item::grow_item;
use acl_base::{Limits, SymId, Word};
use acl_declare::GuardItem;
use acl_engine::Engine;
use acl_expand::{Progress, Refused, no_stop};
use acl_heap::Heap;
use acl_syms::Symbols;
use acl_terms::{Core, ExpandFault};
use acl_types::{choice, constant};
use acl_worlds::World;
use std::alloc::{AllocError, Global};

/// `T`.
const TRUTH: Word = Word::Sym(SymId(0));

/// `NIL`.
const NIL: Word = Word::Sym(SymId(1));

/// How deep a core form may be.
const DEEPEST: u32 = 2_048;

/// A test, and what is asked behind it.
pub(crate) fn guarded(
    alloc: Global,
    heap: &Heap,
    test: Core,
    rest: Core,
) -> Result<Core, AllocError>
    requires test { CoreLies heap.now test }
    requires rest { CoreLies heap.now rest }
    ensures { IfOk result (λ f. IsCore heap.now f (cores.If (seen_core heap.now test) (seen_core heap.now rest) false_core)) }
{
    let otherwise = constant(heap, NIL);
    let core = choice(alloc, heap, test, rest, otherwise)?;
    Ok(core)
}

/// The core form of a guard that asks one thing at most.
#[tactic(auto, using(acl_forms::specs::Growth::growing, acl_expand::proofs::KnownLemmas::memory_told))]
fn grow_last<E: Engine>(
    alloc: Global,
    world: &World,
    heap: &mut Heap,
    syms: &mut Symbols,
    engine: &mut E,
    limits: Limits,
    progress: &mut Progress,
    items: &[GuardItem],
    left: u32,
) -> Result<Core, Refused>
    requires few { length items.now ≤ 1 }
    requires some { 0 < left }
    requires fits { E.fits engine.old heap.old world.now syms.old }
    requires world { WorldLies heap.old world.now }
    requires items { items_reach items.now ≤ length heap.old }
    requires supplies { KnowsSupplies (length syms.old.symbols) (seen_world heap.old world.now) }
    requires known { AreKnownItems (length syms.old.symbols) (seen_items heap.old items.now) }
    requires limits { AreLimits limits.steps limits.depth }
    requires counts { IsWithin progress.old limits.steps }
    ensures grows { Grown syms.old syms.new heap.old heap.new }
    ensures packages { syms.new.packages ≡ syms.old.packages }
    ensures live { E.live engine.new ≡ E.live engine.old }
    ensures fits { E.fits engine.new heap.new world.now syms.new }
    ensures counts { IsWithin progress.new limits.steps }
    ensures known { IfOk result (λ f. KnowsForm (length syms.new.symbols) (seen_core heap.new f)) }
    ensures told { IfErr result IsTold }
    ensures ends { EndsCore heap.new (seen_progress syms.new.symbols progress.new) result (expansion.grown (setting_at heap.old world.now syms.old limits.steps limits.depth) left (layers.Guard (seen_items heap.old items.now)) (seen_progress syms.old.symbols progress.old)) }
{
    match items.split_first() {
        None => Ok(constant(heap, TRUTH)),
        Some((item, _others)) => {
            match grow_item(
                alloc, world, heap, syms, engine, limits, progress, item, left,
            ) {
                Err(refused) => Err(refused),
                Ok(core) => Ok(core),
            }
        }
    }
}

/// The core form of all that a guard asks, where so many levels are left.
#[cycle(guard)]
#[tactic(auto, using(acl_forms::specs::Growth::growing, acl_expand::proofs::KnownLemmas::memory_told))]
fn grow_guard<E: Engine>(
    alloc: Global,
    world: &World,
    heap: &mut Heap,
    syms: &mut Symbols,
    engine: &mut E,
    limits: Limits,
    progress: &mut Progress,
    items: &[GuardItem],
    left: u32,
) -> Result<Core, Refused>
    requires fits { E.fits engine.old heap.old world.now syms.old }
    requires world { WorldLies heap.old world.now }
    requires items { items_reach items.now ≤ length heap.old }
    requires supplies { KnowsSupplies (length syms.old.symbols) (seen_world heap.old world.now) }
    requires known { AreKnownItems (length syms.old.symbols) (seen_items heap.old items.now) }
    requires limits { AreLimits limits.steps limits.depth }
    requires counts { IsWithin progress.old limits.steps }
    ensures grows { Grown syms.old syms.new heap.old heap.new }
    ensures packages { syms.new.packages ≡ syms.old.packages }
    ensures live { E.live engine.new ≡ E.live engine.old }
    ensures fits { E.fits engine.new heap.new world.now syms.new }
    ensures counts { IsWithin progress.new limits.steps }
    ensures known { IfOk result (λ f. KnowsForm (length syms.new.symbols) (seen_core heap.new f)) }
    ensures told { IfErr result IsTold }
    ensures ends { EndsCore heap.new (seen_progress syms.new.symbols progress.new) result (expansion.grown (setting_at heap.old world.now syms.old limits.steps limits.depth) left (layers.Guard (seen_items heap.old items.now)) (seen_progress syms.old.symbols progress.old)) }
{
    if left == 0 {
        return Err(no_stop(ExpandFault::TooNested));
    }
    match items.split_first() {
        None => Ok(constant(heap, TRUTH)),
        Some((item, others)) => {
            if others.len() == 0 {
                match grow_last(
                    alloc, world, heap, syms, engine, limits, progress, items, left,
                ) {
                    Err(refused) => Err(refused),
                    Ok(core) => Ok(core),
                }
            } else {
                let under = left - 1;
                match grow_item(
                    alloc, world, heap, syms, engine, limits, progress, item, under,
                ) {
                    Err(refused) => Err(refused),
                    Ok(test) => {
                        match grow_guard(
                            alloc, world, heap, syms, engine, limits, progress, others, under,
                        ) {
                            Err(refused) => Err(refused),
                            Ok(rest) => {
                                let core = guarded(alloc, heap, test, rest)?;
                                Ok(core)
                            }
                        }
                    }
                }
            }
        }
    }
}

/// The guard of a definition as a core form: `T` where nothing is asked; or the first fault in preorder.
#[tactic(auto, using(acl_forms::specs::Growth::growing))]
pub fn expand_guard<E: Engine>(
    alloc: Global,
    world: &World,
    heap: &mut Heap,
    syms: &mut Symbols,
    engine: &mut E,
    limits: Limits,
    progress: &mut Progress,
    items: &[GuardItem],
) -> Result<Core, Refused>
    requires fits { E.fits engine.old heap.old world.now syms.old }
    requires world { WorldLies heap.old world.now }
    requires items { items_reach items.now ≤ length heap.old }
    requires supplies { KnowsSupplies (length syms.old.symbols) (seen_world heap.old world.now) }
    requires known { AreKnownItems (length syms.old.symbols) (seen_items heap.old items.now) }
    requires limits { AreLimits limits.steps limits.depth }
    requires counts { IsWithin progress.old limits.steps }
    ensures grows { Grown syms.old syms.new heap.old heap.new }
    ensures packages { syms.new.packages ≡ syms.old.packages }
    ensures live { E.live engine.new ≡ E.live engine.old }
    ensures fits { E.fits engine.new heap.new world.now syms.new }
    ensures counts { IsWithin progress.new limits.steps }
    ensures known { IfOk result (λ f. KnowsForm (length syms.new.symbols) (seen_core heap.new f)) }
    ensures told { IfErr result IsTold }
    ensures ends { EndsCore heap.new (seen_progress syms.new.symbols progress.new) result (expansion.expanded_guard (setting_at heap.old world.now syms.old limits.steps limits.depth) (seen_items heap.old items.now) (seen_progress syms.old.symbols progress.old)) }
{
    match grow_guard(
        alloc, world, heap, syms, engine, limits, progress, items, DEEPEST,
    ) {
        Err(refused) => Err(refused),
        Ok(core) => Ok(core),
    }
}
