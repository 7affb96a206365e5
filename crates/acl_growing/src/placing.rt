//! What stands at the place of a part.

ghost use Rattle.std.specs.Prelude.{◌≡◌, ◌≤◌, length, IfOk, IfErr};
ghost use Rattle.acl_base.specs.Limits.{AreLimits};
ghost use Rattle.model_expansion.specs.Expansion as expansion;
ghost use Rattle.acl_forms.specs.Forms.{Grown};
ghost use Rattle.acl_heap.specs.Objects.{Extends};
ghost use Rattle.acl_layers.specs.Layers.{seen_ready, ready_reach, seen_part, part_reach, PartFits, seen_found, found_reach, FoundFits};
ghost use Rattle.acl_terms.specs.Forms.{seen_core};
ghost use Rattle.acl_worlds.specs.Contents.{seen_world, WorldLies};
ghost use Rattle.model_expansion_parts.specs.Known.{KnowsForm, KnowsPart, KnowsFound, KnowsSupplies};
ghost use Rattle.acl_expand.specs.Looks.{setting_at};
ghost use Rattle.acl_expand.specs.Refusals.{IsTold};
ghost use Rattle.acl_expand.specs.Progresses.{seen_progress, IsWithin};
ghost use Rattle.acl_growing.specs.Ends.{seen_placed, StandsPlaced, EndsPlaced, EndsLeaf};

use crate::placed::Placed;
use crate::ready::form_fault;
use acl_base::Limits;
use acl_engine::Engine;
use acl_expand::{Progress, Refused, no_stop, rest_found, settle};
use acl_heap::Heap;
use acl_layers::{Found, Part, Ready, core_of};
use acl_syms::Symbols;
use acl_terms::Core;
use acl_worlds::World;
use std::alloc::{AllocError, Global};

/// The core form of what is ready, where so many levels are left.
#[tactic(auto, using(acl_expand::proofs::KnownLemmas::memory_told))]
fn ready_placed(
    alloc: Global,
    world: &World,
    heap: &mut Heap,
    syms: &Symbols,
    limits: Limits,
    _progress: Progress,
    ready: Ready,
    left: u32,
) -> Result<Core, Refused>
    requires world { WorldLies heap.old world.now }
    requires ready { ready_reach ready ≤ length heap.old }
    requires known { KnowsForm (length syms.now.symbols) (seen_ready heap.old ready) }
    ensures grows { Extends heap.old heap.new }
    ensures known { IfOk result (λ f. KnowsForm (length syms.now.symbols) (seen_core heap.new f)) }
    ensures told { IfErr result IsTold }
    ensures ends { EndsLeaf heap.new (seen_progress syms.now.symbols _progress) result (expansion.ready (setting_at heap.old world.now syms.now limits.steps limits.depth) left (seen_ready heap.old ready) (seen_progress syms.now.symbols _progress)) }
{
    let core = core_of(alloc, heap, ready)?;
    match form_fault(heap, syms, world, limits, &core, left) {
        Some(fault) => Err(no_stop(fault)),
        None => Ok(core),
    }
}

/// What was found at a place, its leaf as a core form.
fn placed(alloc: Global, heap: &mut Heap, found: Found) -> Result<Placed, AllocError>
    requires lies { found_reach found ≤ length heap.old }
    requires fits { FoundFits heap.old found }
    ensures grows { Extends heap.old heap.new }
    ensures ok { IfOk result (λ q. StandsPlaced heap.new q (seen_found heap.old found)) }
{
    match found {
        Found::Leaf(ready) => {
            let core = core_of(alloc, heap, ready)?;
            Ok(Placed::Leaf(core))
        }
        Found::Node(kind, parts) => Ok(Placed::Node(kind, parts)),
    }
}

/// What stands at the place of a part, where so many levels are left.
#[tactic(auto, using(acl_forms::specs::Growth::growing, acl_expand::proofs::KnownLemmas::memory_told))]
pub fn part_found<E: Engine>(
    alloc: Global,
    world: &World,
    heap: &mut Heap,
    syms: &mut Symbols,
    engine: &mut E,
    limits: Limits,
    progress: &mut Progress,
    part: Part,
    left: u32,
) -> Result<Placed, Refused>
    requires fits { E.fits engine.old heap.old world.now syms.old }
    requires world { WorldLies heap.old world.now }
    requires part { part_reach part ≤ length heap.old }
    requires rest { PartFits heap.old part }
    requires supplies { KnowsSupplies (length syms.old.symbols) (seen_world heap.old world.now) }
    requires known { KnowsPart (length syms.old.symbols) (seen_part heap.old part) }
    requires limits { AreLimits limits.steps limits.depth }
    requires counts { IsWithin progress.old limits.steps }
    ensures grows { Grown syms.old syms.new heap.old heap.new }
    ensures packages { syms.new.packages ≡ syms.old.packages }
    ensures live { E.live engine.new ≡ E.live engine.old }
    ensures fits { E.fits engine.new heap.new world.now syms.new }
    ensures counts { IsWithin progress.new limits.steps }
    ensures known { IfOk result (λ q. KnowsFound (length syms.new.symbols) (seen_placed heap.new q)) }
    ensures told { IfErr result IsTold }
    ensures ends { EndsPlaced heap.new (seen_progress syms.new.symbols progress.new) result (expansion.part_found (setting_at heap.old world.now syms.old limits.steps limits.depth) left (seen_part heap.old part) (seen_progress syms.old.symbols progress.old)) }
{
    match part {
        Part::Form(form) => {
            match settle(alloc, world, heap, syms, engine, limits, progress, form) {
                Err(refused) => Err(refused),
                Ok(found) => {
                    let q = placed(alloc, heap, found)?;
                    Ok(q)
                }
            }
        }
        Part::Ready(ready) => {
            match ready_placed(alloc, world, heap, syms, limits, *progress, ready, left) {
                Err(refused) => Err(refused),
                Ok(core) => Ok(Placed::Leaf(core)),
            }
        }
        Part::Rest(row, rest) => {
            match rest_found(
                alloc, world, heap, syms, engine, limits, progress, row, rest,
            ) {
                Err(refused) => Err(refused),
                Ok(found) => {
                    let q = placed(alloc, heap, found)?;
                    Ok(q)
                }
            }
        }
    }
}
