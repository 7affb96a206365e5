//! A form is checked and translated, so many times.

ghost use Rattle.std.specs.Prelude.{◌≡◌, true};
ghost use Rattle.acl_narrow.specs.Narrow.{is_narrow};
ghost use Rattle.acl_terms.specs.Forms.{seen_core};
ghost use Rattle.acl_worlds.specs.Contents.{seen_world};
ghost use Rattle.acl_form_times.specs.Simple.{IsSimple};

use crate::shapes::{Shape, X, form};
use crate::simple::is_simple;
use crate::world::put_function;
use acl_base::SymId;
use acl_check::check_form;
use acl_code::Terms;
use acl_heap::Heap;
use acl_narrow::is_narrow;
use acl_terms::{Core, Entry, Mode, Out, Scope, ThreadFault};
use acl_translate::translate;
use acl_worlds::World;
use std::alloc::Global;

/// How deep a form is at most.
const DEEP: u32 = 2048;

/// Checks a form.
fn checked(
    alloc: Global,
    world: &World,
    heap: &Heap,
    scope: &Scope,
    core: &Core,
) -> Result<(), ThreadFault>
    requires narrow { is_narrow 2048 (seen_core heap.now core.now) ≡ true }
    requires simple { IsSimple (seen_world heap.now world.now) heap.now core.now }
{
    check_form(
        alloc,
        world,
        heap,
        Mode::Executable,
        scope,
        core,
        &[Out::Ordinary],
    )
}

/// Translates a form into an empty table, and answers how many terms this has then.
#[tactic(auto, using(crate::proofs::RoundLemmas::none_lie))]
fn translated(
    alloc: Global,
    world: &World,
    heap: &Heap,
    scope: &Scope,
    core: &Core,
) -> Result<u64, ThreadFault>
    requires narrow { is_narrow 2048 (seen_core heap.now core.now) ≡ true }
    requires simple { IsSimple (seen_world heap.now world.now) heap.now core.now }
{
    let mut terms = Terms::new(alloc);
    let _term = translate(
        alloc,
        &mut terms,
        world,
        heap,
        Mode::Executable,
        scope,
        &[SymId(X)],
        core,
        &[Out::Ordinary],
    )?;
    Ok(terms.len())
}

/// Checks a form so many times, translates it so many times, and answers how many terms there are the last time.
fn rounds(
    alloc: Global,
    world: &World,
    heap: &Heap,
    core: &Core,
    checks: u32,
    translations: u32,
) -> Result<u64, ThreadFault>
    requires narrow { is_narrow 2048 (seen_core heap.now core.now) ≡ true }
    requires simple { IsSimple (seen_world heap.now world.now) heap.now core.now }
{
    let entry = Entry {
        name: SymId(X),
        kind: Out::Ordinary,
    };
    let scope = Scope::from_entries(alloc, &[entry])?;
    for _ in 0..checks {
        checked(alloc, world, heap, &scope, core)?;
    }
    let mut terms = 0;
    for _ in 0..translations {
        terms = translated(alloc, world, heap, &scope, core)?;
    }
    Ok(terms)
}

/// The same of the form of this shape and size; none where it is too deep.
#[tactic(auto, using(acl_worlds::proofs::PrimitiveLemmas::no_primitives))]
pub fn all_rounds(
    alloc: Global,
    shape: Shape,
    levels: u32,
    width: u32,
    checks: u32,
    translations: u32,
) -> Result<u64, ThreadFault> {
    let heap = Heap::new(alloc);
    let mut world = World::new(alloc, &[])?;
    put_function(alloc, &mut world, width)?;
    let core = form(alloc, shape, levels, width)?;
    if !is_narrow(&heap, &core, DEEP) {
        return Ok(0);
    }
    if !is_simple(&world, &heap, &core, DEEP) {
        return Ok(0);
    }
    rounds(alloc, &world, &heap, &core, checks, translations)
}
