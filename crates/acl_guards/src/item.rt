//! One thing that a guard asks.

ghost use Rattle.std.specs.Prelude.{◌≡◌, ◌≤◌, length, IfOk, IfErr};
ghost use Rattle.acl_base.specs.Limits.{AreLimits};
ghost use Rattle.model_expansion.specs.Layers as layers;
ghost use Rattle.model_expansion.specs.Expansion as expansion;
ghost use Rattle.model_expansion_parts.specs.Known.{KnowsForm, KnowsSupplies};
ghost use Rattle.model_expansion_forms.specs.Rows.{IsKnownItem};
ghost use Rattle.acl_forms.specs.Forms.{Grown};
ghost use Rattle.acl_terms.specs.Forms.{seen_core, CoreLies};
ghost use Rattle.acl_worlds.specs.Contents.{seen_world, WorldLies};
ghost use Rattle.acl_declare.specs.Said.{seen_item, item_reach};
ghost use Rattle.acl_expand.specs.Looks.{setting_at};
ghost use Rattle.acl_expand.specs.Refusals.{IsTold};
ghost use Rattle.acl_expand.specs.Progresses.{seen_progress, IsWithin};
ghost use Rattle.acl_growing.specs.Ends.{EndsCore};

use acl_base::Limits;
use acl_copies::copy_core;
use acl_declare::GuardItem;
use acl_engine::Engine;
use acl_expand::{Progress, Refused, no_stop};
use acl_growing::{form_fault, grow};
use acl_heap::Heap;
use acl_layers::Part;
use acl_syms::Symbols;
use acl_terms::Core;
use acl_worlds::World;
use std::alloc::Global;

/// A ready form where so many levels are left, in memory of its own.
#[tactic(auto, using(crate::proofs::ItemLemmas::ready_stands, crate::proofs::ItemLemmas::ready_fails, acl_expand::proofs::KnownLemmas::memory_told))]
fn grow_ready(
    alloc: Global,
    world: &World,
    heap: &Heap,
    syms: &Symbols,
    limits: Limits,
    _progress: Progress,
    core: &Core,
    left: u32,
) -> Result<Core, Refused>
    requires world { WorldLies heap.now world.now }
    requires core { CoreLies heap.now core.now }
    requires known { KnowsForm (length syms.now.symbols) (seen_core heap.now core.now) }
    ensures known { IfOk result (λ f. KnowsForm (length syms.now.symbols) (seen_core heap.now f)) }
    ensures told { IfErr result IsTold }
    ensures ends { EndsCore heap.now (seen_progress syms.now.symbols _progress) result (expansion.grown (setting_at heap.now world.now syms.now limits.steps limits.depth) left (layers.Ready (seen_core heap.now core.now)) (seen_progress syms.now.symbols _progress)) }
{
    match form_fault(heap, syms, world, limits, core, left) {
        Some(fault) => Err(no_stop(fault)),
        None => {
            let copy = copy_core(alloc, core)?;
            Ok(copy)
        }
    }
}

/// The core form of one thing that a guard asks, where so many levels are left.
#[tactic(auto, using(acl_forms::specs::Growth::growing))]
pub fn grow_item<E: Engine>(
    alloc: Global,
    world: &World,
    heap: &mut Heap,
    syms: &mut Symbols,
    engine: &mut E,
    limits: Limits,
    progress: &mut Progress,
    item: &GuardItem,
    left: u32,
) -> Result<Core, Refused>
    requires fits { E.fits engine.old heap.old world.now syms.old }
    requires world { WorldLies heap.old world.now }
    requires item { item_reach item.now ≤ length heap.old }
    requires supplies { KnowsSupplies (length syms.old.symbols) (seen_world heap.old world.now) }
    requires known { IsKnownItem (length syms.old.symbols) (seen_item heap.old item.now) }
    requires limits { AreLimits limits.steps limits.depth }
    requires counts { IsWithin progress.old limits.steps }
    ensures grows { Grown syms.old syms.new heap.old heap.new }
    ensures packages { syms.new.packages ≡ syms.old.packages }
    ensures live { E.live engine.new ≡ E.live engine.old }
    ensures fits { E.fits engine.new heap.new world.now syms.new }
    ensures counts { IsWithin progress.new limits.steps }
    ensures known { IfOk result (λ f. KnowsForm (length syms.new.symbols) (seen_core heap.new f)) }
    ensures told { IfErr result IsTold }
    ensures ends { EndsCore heap.new (seen_progress syms.new.symbols progress.new) result (expansion.grown (setting_at heap.old world.now syms.old limits.steps limits.depth) left (expansion.item_part (setting_at heap.old world.now syms.old limits.steps limits.depth) (seen_item heap.old item.now)) (seen_progress syms.old.symbols progress.old)) }
{
    match item {
        GuardItem::FormHolds(form) => {
            let part = Part::Form(*form);
            match grow(
                alloc, world, heap, syms, engine, limits, progress, part, left,
            ) {
                Err(refused) => Err(refused),
                Ok(core) => Ok(core),
            }
        }
        GuardItem::Meets(test) => {
            match grow_ready(alloc, world, heap, syms, limits, *progress, test, left) {
                Err(refused) => Err(refused),
                Ok(core) => Ok(core),
            }
        }
    }
}
