//! The core form of a form.

ghost use Rattle.std.specs.Prelude.{◌≡◌, ◌≤◌, ◌++◌, ◌∷◌, [], map, length, OnOk, IfOk, IfErr};
ghost use Rattle.acl_base.specs.Limits.{AreLimits};
ghost use Rattle.model_expansion.specs.Expansion as expansion;
ghost use Rattle.acl_forms.specs.Forms.{Grown};
ghost use Rattle.acl_heap.specs.Objects.{object_of, Lies};
ghost use Rattle.acl_layers.specs.Layers.{seen_part, seen_parts, part_reach, parts_reach, PartFits, PartsFit};
ghost use Rattle.acl_terms.specs.Forms.{seen_core, seen_cores};
ghost use Rattle.acl_worlds.specs.Contents.{seen_world, WorldLies};
ghost use Rattle.model_objects.specs.Named.{Knows};
ghost use Rattle.model_expansion_parts.specs.Known.{KnowsForm, KnowsPart, KnowsParts, KnowsSupplies};
ghost use Rattle.acl_expand.specs.Looks.{setting_at};
ghost use Rattle.acl_expand.specs.Refusals.{IsTold};
ghost use Rattle.acl_expand.specs.Progresses.{seen_progress, IsWithin};
ghost use Rattle.acl_growing.specs.Ends.{EndsCore, EndsCores, KnowsForms};

use crate::node::core_of_node;
use crate::placed::Placed;
use crate::placing::part_found;
use acl_base::{Limits, Word};
use acl_engine::Engine;
use acl_expand::{Progress, Refused, no_stop};
use acl_heap::Heap;
use acl_layers::Part;
use acl_syms::Symbols;
use acl_terms::{Core, ExpandFault};
use acl_worlds::World;
use std::alloc::{AllocError, Global};

/// How deep a core form may be.
const DEEPEST: u32 = 2_048;

/// The core form of a part, or its first fault in preorder, where so many levels are left.
#[cycle(grow)]
#[tactic(auto, using(acl_forms::specs::Growth::growing, crate::proofs::GrowLemmas::grown_end, crate::proofs::GrowLemmas::grown_fails, crate::proofs::GrowLemmas::grown_leaf, acl_expand::proofs::KnownLemmas::memory_told))]
pub fn grow<E: Engine>(
    alloc: Global,
    world: &World,
    heap: &mut Heap,
    syms: &mut Symbols,
    engine: &mut E,
    limits: Limits,
    progress: &mut Progress,
    part: Part,
    left: u32,
) -> Result<Core, Refused>
    requires fits { E.fits engine.old heap.old world.now syms.old }
    requires world { WorldLies heap.old world.now }
    requires part { part_reach part ≤ length heap.old }
    requires rest { PartFits heap.old part }
    requires supplies { KnowsSupplies (length syms.old.symbols) (seen_world heap.old world.now) }
    requires known { KnowsPart (length syms.old.symbols) (seen_part heap.old part) }
    requires limits { AreLimits limits.steps limits.depth }
    requires counts { IsWithin progress.old limits.steps }
    ensures grows { Grown syms.old syms.new heap.old heap.new }
    ensures packages { syms.new.packages ≡ syms.old.packages }
    ensures live { E.live engine.new ≡ E.live engine.old }
    ensures fits { E.fits engine.new heap.new world.now syms.new }
    ensures counts { IsWithin progress.new limits.steps }
    ensures known { IfOk result (λ f. KnowsForm (length syms.new.symbols) (seen_core heap.new f)) }
    ensures told { IfErr result IsTold }
    ensures ends { EndsCore heap.new (seen_progress syms.new.symbols progress.new) result (expansion.grown (setting_at heap.old world.now syms.old limits.steps limits.depth) left (seen_part heap.old part) (seen_progress syms.old.symbols progress.old)) }
{
    if left == 0 {
        return Err(no_stop(ExpandFault::TooNested));
    }
    match part_found(
        alloc, world, heap, syms, engine, limits, progress, part, left,
    ) {
        Err(refused) => Err(refused),
        Ok(found) => match found {
            Placed::Leaf(core) => Ok(core),
            Placed::Node(kind, parts) => {
                let under = left - 1;
                match grow_all(
                    alloc,
                    world,
                    heap,
                    syms,
                    engine,
                    limits,
                    progress,
                    parts.as_slice(),
                    under,
                ) {
                    Err(refused) => Err(refused),
                    Ok(done) => {
                        let core = core_of_node(alloc, heap, kind, done)?;
                        Ok(core)
                    }
                }
            }
        },
    }
}

/// One more core form behind the others.
fn add(done: &mut Vec<Core>, core: Core) -> Result<(), AllocError>
    ensures { OnOk result (done.new.items ≡ done.old.items ++ core ∷ []) }
{
    done.push(core)?;
    Ok(())
}

/// The core forms of parts in order.
#[cycle(grow)]
#[tactic(auto, using(acl_forms::specs::Growth::growing, acl_expand::proofs::KnownLemmas::memory_told))]
fn grow_all<E: Engine>(
    alloc: Global,
    world: &World,
    heap: &mut Heap,
    syms: &mut Symbols,
    engine: &mut E,
    limits: Limits,
    progress: &mut Progress,
    parts: &[Part],
    left: u32,
) -> Result<Vec<Core>, Refused>
    requires fits { E.fits engine.old heap.old world.now syms.old }
    requires world { WorldLies heap.old world.now }
    requires parts { parts_reach parts.now ≤ length heap.old }
    requires rest { PartsFit heap.old parts.now }
    requires supplies { KnowsSupplies (length syms.old.symbols) (seen_world heap.old world.now) }
    requires known { KnowsParts (length syms.old.symbols) (seen_parts heap.old parts.now) }
    requires limits { AreLimits limits.steps limits.depth }
    requires counts { IsWithin progress.old limits.steps }
    ensures grows { Grown syms.old syms.new heap.old heap.new }
    ensures packages { syms.new.packages ≡ syms.old.packages }
    ensures live { E.live engine.new ≡ E.live engine.old }
    ensures fits { E.fits engine.new heap.new world.now syms.new }
    ensures counts { IsWithin progress.new limits.steps }
    ensures known { IfOk result (λ fs. KnowsForms (length syms.new.symbols) (seen_cores heap.new fs.items)) }
    ensures told { IfErr result IsTold }
    ensures ends { EndsCores heap.new (seen_progress syms.new.symbols progress.new) result (expansion.grown_all (expansion.grown (setting_at heap.old world.now syms.old limits.steps limits.depth) left) (seen_parts heap.old parts.now) [] (seen_progress syms.old.symbols progress.old)) }
{
    let mut done = Vec::new(alloc);
    'parts: for part in parts {
        match grow(
            alloc, world, heap, syms, engine, limits, progress, *part, left,
        ) {
            Err(refused) => return Err(refused),
            Ok(core) => add(&mut done, core)?,
        }
    }
    Ok(done)
}

/// The core form of a form, or its first fault in preorder.
#[tactic(auto, using(acl_forms::specs::Growth::growing))]
pub fn expand<E: Engine>(
    alloc: Global,
    world: &World,
    heap: &mut Heap,
    syms: &mut Symbols,
    engine: &mut E,
    limits: Limits,
    progress: &mut Progress,
    form: Word,
) -> Result<Core, Refused>
    requires fits { E.fits engine.old heap.old world.now syms.old }
    requires world { WorldLies heap.old world.now }
    requires form { Lies heap.old form }
    requires supplies { KnowsSupplies (length syms.old.symbols) (seen_world heap.old world.now) }
    requires known { Knows (length syms.old.symbols) (object_of heap.old form) }
    requires limits { AreLimits limits.steps limits.depth }
    requires counts { IsWithin progress.old limits.steps }
    ensures grows { Grown syms.old syms.new heap.old heap.new }
    ensures packages { syms.new.packages ≡ syms.old.packages }
    ensures live { E.live engine.new ≡ E.live engine.old }
    ensures fits { E.fits engine.new heap.new world.now syms.new }
    ensures counts { IsWithin progress.new limits.steps }
    ensures known { IfOk result (λ f. KnowsForm (length syms.new.symbols) (seen_core heap.new f)) }
    ensures told { IfErr result IsTold }
    ensures ends { EndsCore heap.new (seen_progress syms.new.symbols progress.new) result (expansion.expanded (setting_at heap.old world.now syms.old limits.steps limits.depth) (object_of heap.old form) (seen_progress syms.old.symbols progress.old)) }
{
    let part = Part::Form(form);
    match grow(
        alloc, world, heap, syms, engine, limits, progress, part, DEEPEST,
    ) {
        Err(refused) => Err(refused),
        Ok(core) => Ok(core),
    }
}
