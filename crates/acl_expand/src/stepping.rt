//! One step at a place, and all of them.

ghost use Rattle.std.specs.Prelude.{◌≡◌, ◌≤◌, length, IfOk, IfErr};
ghost use Rattle.acl_base.specs.Limits.{AreLimits};
ghost use Rattle.model_expansion.specs.Forms.{elements};
ghost use Rattle.model_expansion.specs.Layers as layers;
ghost use Rattle.model_expansion.specs.Expansion as expansion;
ghost use Rattle.acl_forms.specs.Forms.{Grown};
ghost use Rattle.acl_heap.specs.Objects.{object_of, Lies};
ghost use Rattle.acl_terms.specs.Definitions.{seen_formals, formals_reach};
ghost use Rattle.acl_worlds.specs.Contents.{seen_world, WorldLies};
ghost use Rattle.model_objects.specs.Named.{Knows};
ghost use Rattle.model_expansion_forms.specs.Rows.{AllKnown};
ghost use Rattle.model_expansion_parts.specs.Known.{KnowsRow, KnowsFormals, KnowsMade, KnowsFound, KnowsSupplies};
ghost use Rattle.acl_layers.specs.Rows.{seen_row};
ghost use Rattle.acl_layers.specs.Lists.{seen_left, LeftLies};
ghost use Rattle.acl_layers.specs.Layers.{IsWhole, RestFits, seen_made, seen_found};
ghost use Rattle.acl_engine.specs.Outcomes.{seen_body, IsMacroOf};
ghost use Rattle.acl_expand.specs.Looks.{setting_at};
ghost use Rattle.acl_expand.specs.Refusals.{IsTold};
ghost use Rattle.acl_expand.specs.Progresses.{seen_progress, EndsMade, EndsFound, IsWithin};

use crate::entering::entered;
use crate::looked::Looked;
use crate::looking::look_at;
use crate::progress::{Progress, Refused, no_stop};
use crate::settling::{at_stop, built};
use acl_base::{Limits, SymId, Word};
use acl_engine::Engine;
use acl_heap::Heap;
use acl_layers::{Found, Left, Made, Row, made_of};
use acl_syms::Symbols;
use acl_terms::{ExpandFault, Macro, Stop};
use acl_worlds::World;
use std::alloc::Global;

/// A use of a built-in macro, where one more may be counted.
fn counted_row(
    alloc: Global,
    heap: &Heap,
    syms: &Symbols,
    world: &World,
    limits: Limits,
    progress: &mut Progress,
    head: SymId,
    row: Row,
    d: Word,
) -> Result<Made, Refused>
    requires whole { IsWhole row }
    requires word { Lies heap.now d }
    requires enough { 2 ≤ length syms.now.symbols }
    requires row { KnowsRow (length syms.now.symbols) (seen_row row) }
    requires known { Knows (length syms.now.symbols) (object_of heap.now d) }
    requires limits { AreLimits limits.steps limits.depth }
    requires counts { IsWithin progress.old limits.steps }
    ensures counts { IsWithin progress.new limits.steps }
    ensures known { IfOk result (λ m. KnowsMade (length syms.now.symbols) (seen_made heap.now m)) }
    ensures told { IfErr result IsTold }
    ensures ends { EndsMade heap.now (seen_progress syms.now.symbols progress.new) result (expansion.counting_expansion limits.steps (expansion.built (setting_at heap.now world.now syms.now limits.steps limits.depth) head.0 (seen_row row) (object_of heap.now d)) (seen_progress syms.now.symbols progress.old)) }
{
    if progress.calls >= limits.steps {
        return Err(at_stop(Stop::Steps, None));
    }
    progress.calls += 1;
    progress.outer += 1;
    match built(alloc, heap, syms, world, limits, *progress, head, row, d) {
        Err(refused) => Err(refused),
        Ok(made) => Ok(made),
    }
}

/// A use of a macro of the world, where one more may be counted.
fn counted_macro<E: Engine>(
    alloc: Global,
    world: &World,
    heap: &mut Heap,
    syms: &mut Symbols,
    engine: &mut E,
    limits: Limits,
    progress: &mut Progress,
    head: SymId,
    definition: &Macro,
    d: Word,
) -> Result<Made, Refused>
    requires fits { E.fits engine.old heap.old world.now syms.old }
    requires world { WorldLies heap.old world.now }
    requires definition { IsMacroOf world.now definition.now }
    requires formals { formals_reach definition.now.formals ≤ length heap.old }
    requires word { Lies heap.old d }
    requires enough { 2 ≤ length syms.old.symbols }
    requires defaults { KnowsFormals (length syms.old.symbols) (seen_formals heap.old definition.now.formals) }
    requires known { Knows (length syms.old.symbols) (object_of heap.old d) }
    requires limits { AreLimits limits.steps limits.depth }
    requires counts { IsWithin progress.old limits.steps }
    ensures grows { Grown syms.old syms.new heap.old heap.new }
    ensures packages { syms.new.packages ≡ syms.old.packages }
    ensures live { E.live engine.new ≡ E.live engine.old }
    ensures fits { E.fits engine.new heap.new world.now syms.new }
    ensures counts { IsWithin progress.new limits.steps }
    ensures known { IfOk result (λ m. KnowsMade (length syms.new.symbols) (seen_made heap.new m)) }
    ensures told { IfErr result IsTold }
    ensures ends { EndsMade heap.new (seen_progress syms.new.symbols progress.new) result (expansion.counting_expansion limits.steps (expansion.used (setting_at heap.old world.now syms.old limits.steps limits.depth) head.0 (seen_formals heap.old definition.now.formals) (seen_body heap.old definition.now) (elements (object_of heap.old d))) (seen_progress syms.old.symbols progress.old)) }
{
    if progress.calls >= limits.steps {
        return Err(at_stop(Stop::Steps, None));
    }
    progress.calls += 1;
    progress.outer += 1;
    match entered(
        alloc, world, heap, syms, engine, limits, progress, head, definition, d,
    ) {
        Err(refused) => Err(refused),
        Ok(made) => Ok(made),
    }
}

/// One step at a place: what stands there, or what a use there makes that may be counted.
#[tactic(auto, using(crate::proofs::SettleLemmas::formals_lie, crate::proofs::KnownLemmas::memory_told, crate::proofs::KnownLemmas::use_row_known))]
pub fn step<E: Engine>(
    alloc: Global,
    world: &World,
    heap: &mut Heap,
    syms: &mut Symbols,
    engine: &mut E,
    limits: Limits,
    progress: &mut Progress,
    form: Word,
) -> Result<Made, Refused>
    requires fits { E.fits engine.old heap.old world.now syms.old }
    requires world { WorldLies heap.old world.now }
    requires word { Lies heap.old form }
    requires supplies { KnowsSupplies (length syms.old.symbols) (seen_world heap.old world.now) }
    requires known { Knows (length syms.old.symbols) (object_of heap.old form) }
    requires limits { AreLimits limits.steps limits.depth }
    requires counts { IsWithin progress.old limits.steps }
    ensures grows { Grown syms.old syms.new heap.old heap.new }
    ensures packages { syms.new.packages ≡ syms.old.packages }
    ensures live { E.live engine.new ≡ E.live engine.old }
    ensures fits { E.fits engine.new heap.new world.now syms.new }
    ensures counts { IsWithin progress.new limits.steps }
    ensures known { IfOk result (λ m. KnowsMade (length syms.new.symbols) (seen_made heap.new m)) }
    ensures told { IfErr result IsTold }
    ensures ends { EndsMade heap.new (seen_progress syms.new.symbols progress.new) result (expansion.looked (setting_at heap.old world.now syms.old limits.steps limits.depth) (expansion.look_at (setting_at heap.old world.now syms.old limits.steps limits.depth) syms.old.symbols (object_of heap.old form)) (seen_progress syms.old.symbols progress.old)) }
{
    match look_at(alloc, heap, syms, world, limits, form)? {
        Looked::Stands(found) => Ok(Made::Stays(found)),
        Looked::Bad(fault) => Err(no_stop(fault)),
        Looked::Use(head, row, d) => {
            match counted_row(alloc, heap, syms, world, limits, progress, head, row, d) {
                Err(refused) => Err(refused),
                Ok(made) => Ok(made),
            }
        }
        Looked::UserUse(head, definition, d) => {
            match counted_macro(
                alloc, world, heap, syms, engine, limits, progress, head, definition, d,
            ) {
                Err(refused) => Err(refused),
                Ok(made) => Ok(made),
            }
        }
    }
}

/// What stands at a place in the end.
#[tactic(auto, using(acl_forms::specs::Growth::growing))]
pub fn settle<E: Engine>(
    alloc: Global,
    world: &World,
    heap: &mut Heap,
    syms: &mut Symbols,
    engine: &mut E,
    limits: Limits,
    progress: &mut Progress,
    form: Word,
) -> Result<Found, Refused>
    requires fits { E.fits engine.old heap.old world.now syms.old }
    requires world { WorldLies heap.old world.now }
    requires word { Lies heap.old form }
    requires supplies { KnowsSupplies (length syms.old.symbols) (seen_world heap.old world.now) }
    requires known { Knows (length syms.old.symbols) (object_of heap.old form) }
    requires limits { AreLimits limits.steps limits.depth }
    requires counts { IsWithin progress.old limits.steps }
    ensures grows { Grown syms.old syms.new heap.old heap.new }
    ensures packages { syms.new.packages ≡ syms.old.packages }
    ensures live { E.live engine.new ≡ E.live engine.old }
    ensures fits { E.fits engine.new heap.new world.now syms.new }
    ensures counts { IsWithin progress.new limits.steps }
    ensures known { IfOk result (λ f. KnowsFound (length syms.new.symbols) (seen_found heap.new f)) }
    ensures told { IfErr result IsTold }
    ensures ends { EndsFound heap.new (seen_progress syms.new.symbols progress.new) result (expansion.settle (setting_at heap.old world.now syms.old limits.steps limits.depth) (object_of heap.old form) (seen_progress syms.old.symbols progress.old)) }
{
    let mut left = limits.steps - progress.calls;
    let mut at = form;
    'uses: loop {
        match step(alloc, world, heap, syms, engine, limits, progress, at) {
            Err(refused) => return Err(refused),
            Ok(next) => match next {
                Made::Stays(found) => return Ok(found),
                Made::Again(word) => {
                    if left == 0 {
                        return Err(at_stop(Stop::Steps, None));
                    }
                    left -= 1;
                    at = word;
                }
            },
        }
    }
}

/// What stands at the place of what is left of a row.
#[tactic(auto, using(crate::proofs::KnownLemmas::memory_told))]
pub fn rest_found<E: Engine>(
    alloc: Global,
    world: &World,
    heap: &mut Heap,
    syms: &mut Symbols,
    engine: &mut E,
    limits: Limits,
    progress: &mut Progress,
    row: Row,
    left: Left,
) -> Result<Found, Refused>
    requires fits { E.fits engine.old heap.old world.now syms.old }
    requires world { WorldLies heap.old world.now }
    requires left { LeftLies heap.old left }
    requires row { RestFits heap.old row left }
    requires supplies { KnowsSupplies (length syms.old.symbols) (seen_world heap.old world.now) }
    requires row_known { KnowsRow (length syms.old.symbols) (seen_row row) }
    requires known { AllKnown (length syms.old.symbols) (seen_left heap.old left) }
    requires limits { AreLimits limits.steps limits.depth }
    requires counts { IsWithin progress.old limits.steps }
    ensures grows { Grown syms.old syms.new heap.old heap.new }
    ensures packages { syms.new.packages ≡ syms.old.packages }
    ensures live { E.live engine.new ≡ E.live engine.old }
    ensures fits { E.fits engine.new heap.new world.now syms.new }
    ensures counts { IsWithin progress.new limits.steps }
    ensures known { IfOk result (λ f. KnowsFound (length syms.new.symbols) (seen_found heap.new f)) }
    ensures told { IfErr result IsTold }
    ensures ends { EndsFound heap.new (seen_progress syms.new.symbols progress.new) result (expansion.row_found (setting_at heap.old world.now syms.old limits.steps limits.depth) (layers.made_of syms.old.symbols (seen_row row) (seen_left heap.old left)) (seen_progress syms.old.symbols progress.old)) }
{
    match made_of(alloc, heap, syms, row, left)? {
        None => Err(no_stop(ExpandFault::TooNested)),
        Some(made) => match made {
            Made::Stays(found) => Ok(found),
            Made::Again(word) => {
                match settle(alloc, world, heap, syms, engine, limits, progress, word) {
                    Err(refused) => Err(refused),
                    Ok(found) => Ok(found),
                }
            }
        },
    }
}
