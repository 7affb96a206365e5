//! What a text is expanded to.

ghost use Rattle.std.specs.Prelude.{◌≡◌, ◌≤◌, length, IfOk, IfSome};
ghost use Rattle.model_expansion_parts.specs.Known.{KnowsSupplies};
ghost use Rattle.acl_base.specs.Limits.{AreLimits};
ghost use Rattle.acl_forms.specs.Forms.{IsWhole};
ghost use Rattle.acl_worlds.specs.Contents.{seen_world, WorldLies};
ghost use Rattle.acl_expand.specs.Progresses.{IsWithin};
ghost use Rattle.model_symbols.specs.Growth.{Extends};
ghost use Rattle.model_symbols.specs.Opening.{opening};

use crate::leaf::LeafEngine;
use crate::reading::read;
use crate::showing::{room, shown_core, shown_fault};
use crate::world::row_world;
use acl_base::{Limits, Word};
use acl_expand::Progress;
use acl_growing::expand;
use acl_heap::Heap;
use acl_syms::Symbols;
use acl_worlds::World;
use std::alloc::{AllocError, Global};

/// A core form or a fault as text, and what was counted.
#[derive(Drop)]
pub struct Expanded {
    pub text: Vec<u8>,
    pub progress: Progress,
}

/// Nothing has been counted.
fn start() -> Progress
    ensures calls { result.calls ≡ 0 }
    ensures outer { result.outer ≡ 0 }
{
    Progress {
        calls: 0,
        outer: 0,
        last: None,
        cut: 1,
    }
}

/// The small world, and the first form of a text; None where it has none.
#[tactic(auto, using(acl_forms::specs::Growth::growing, acl_expand::proofs::KnownLemmas::supplies_there))]
fn opened(
    alloc: Global,
    heap: &mut Heap,
    syms: &mut Symbols,
    bytes: &[u8],
) -> Result<Option<(World, Word)>, AllocError>
    requires { Extends opening syms.old }
    ensures world { IfOk result (λ o. IfSome o (λ p. WorldLies heap.new p.0)) }
    ensures form { IfOk result (λ o. IfSome o (λ p. IsWhole syms.new heap.new p.1)) }
    ensures supplies { IfOk result (λ o. IfSome o (λ p. KnowsSupplies (length syms.new.symbols) (seen_world heap.new p.0))) }
{
    if syms.count() < 2 {
        return Ok(None);
    }
    match row_world(alloc, heap, syms) {
        Err(_) => Ok(None),
        Ok(world) => match read(alloc, heap, syms, bytes) {
            Err(_) => Ok(None),
            Ok(found) => match found {
                None => Ok(None),
                Some(form) => Ok(Some((world, form))),
            },
        },
    }
}

/// The core form of a form as text, or its fault.
fn expanded_word(
    alloc: Global,
    world: &World,
    heap: &mut Heap,
    syms: &mut Symbols,
    limits: Limits,
    form: Word,
) -> Result<Expanded, AllocError>
    requires world { WorldLies heap.old world.now }
    requires form { IsWhole syms.old heap.old form }
    requires supplies { KnowsSupplies (length syms.old.symbols) (seen_world heap.old world.now) }
    requires limits { AreLimits limits.steps limits.depth }
{
    let mut engine = LeafEngine::new(alloc);
    let mut progress = start();
    match expand(
        alloc,
        world,
        heap,
        syms,
        &mut engine,
        limits,
        &mut progress,
        form,
    ) {
        Ok(core) => {
            let top = room(heap);
            let text = shown_core(alloc, heap, syms, top, &core)?;
            Ok(Expanded { text, progress })
        }
        Err(refused) => {
            let text = shown_fault(alloc, syms, &refused.fault)?;
            Ok(Expanded { text, progress })
        }
    }
}

/// What the first form of a text is expanded to in the small world, with so many steps at most; the text is empty where there is
/// no form.
pub fn expansion_of(alloc: Global, bytes: &[u8], steps: u64) -> Result<Expanded, AllocError> {
    let mut syms = Symbols::new(alloc)?;
    let mut heap = Heap::new(alloc);
    let found = opened(alloc, &mut heap, &mut syms, bytes)?;
    match Limits::checked(steps, 1_000) {
        None => Ok(Expanded {
            text: Vec::new(alloc),
            progress: start(),
        }),
        Some(limits) => match found {
            None => Ok(Expanded {
                text: Vec::new(alloc),
                progress: start(),
            }),
            Some((world, form)) => expanded_word(alloc, &world, &mut heap, &mut syms, limits, form),
        },
    }
}

/// One expansion; whether there is a core form.
#[tactic(auto, using(acl_forms::specs::Growth::growing, acl_expand::proofs::KnownLemmas::supplies_there))]
fn once(
    alloc: Global,
    world: &World,
    heap: &mut Heap,
    syms: &mut Symbols,
    limits: Limits,
    progress: &mut Progress,
    form: Word,
) -> bool
    requires world { WorldLies heap.old world.now }
    requires form { IsWhole syms.old heap.old form }
    requires supplies { KnowsSupplies (length syms.old.symbols) (seen_world heap.old world.now) }
    requires limits { AreLimits limits.steps limits.depth }
    requires counts { IsWithin progress.old limits.steps }
    ensures world { WorldLies heap.new world.now }
    ensures form { IsWhole syms.new heap.new form }
    ensures supplies { KnowsSupplies (length syms.new.symbols) (seen_world heap.new world.now) }
    ensures counts { IsWithin progress.new limits.steps }
{
    let mut engine = LeafEngine::new(alloc);
    match expand(
        alloc,
        world,
        heap,
        syms,
        &mut engine,
        limits,
        progress,
        form,
    ) {
        Ok(_) => true,
        Err(_) => false,
    }
}

/// The uses that so many expansions of a form count; None where one is refused.
fn repeated(
    alloc: Global,
    world: &World,
    heap: &mut Heap,
    syms: &mut Symbols,
    limits: Limits,
    form: Word,
    times: u64,
) -> Option<u64>
    requires world { WorldLies heap.old world.now }
    requires form { IsWhole syms.old heap.old form }
    requires supplies { KnowsSupplies (length syms.old.symbols) (seen_world heap.old world.now) }
    requires limits { AreLimits limits.steps limits.depth }
{
    let mut progress = start();
    'times: for _ in 0..times {
        if !once(alloc, world, heap, syms, limits, &mut progress, form) {
            return None;
        }
    }
    Some(progress.calls)
}

/// The uses that so many expansions of the first form of a text count, 10,000,000 at most; None where one is refused, or where there
/// is no form.
pub fn uses(alloc: Global, bytes: &[u8], times: u64) -> Result<Option<u64>, AllocError> {
    let mut syms = Symbols::new(alloc)?;
    let mut heap = Heap::new(alloc);
    let found = opened(alloc, &mut heap, &mut syms, bytes)?;
    match Limits::checked(10_000_000, 1_000) {
        None => Ok(None),
        Some(limits) => match found {
            None => Ok(None),
            Some((world, form)) => Ok(repeated(
                alloc, &world, &mut heap, &mut syms, limits, form, times,
            )),
        },
    }
}
