//! Whether forms hold small integers alone, and call functions that stand.

ghost use Rattle.std.specs.Prelude.{◌≡◌, IsTrue};
ghost use Rattle.acl_heap.specs.Objects.{reach};
ghost use Rattle.acl_worlds.specs.Contents.{seen_world};
ghost use Rattle.model_slots_laws.specs.Standing.{stands};
ghost use Rattle.acl_form_times.specs.Simple.{IsSimple, AreSimple, BoundAreSimple};

use acl_base::{SymId, Word};
use acl_heap::Heap;
use acl_terms::Core;
use acl_worlds::World;

fn is_small(word: &Word) -> bool
    ensures { IsTrue result → reach word.now ≡ 0 }
{
    match word {
        Word::Small(_) => true,
        Word::Big(_) => false,
        Word::Sym(_) => false,
        Word::Str(_) => false,
        Word::Cons(_) => false,
    }
}

/// Whether a definition of this name stands.
fn stands(world: &World, heap: &Heap, f: SymId) -> bool
    ensures { result ≡ stands (seen_world heap.now world.now) f.0 }
{
    match world.look(f, heap) {
        Some(_) => true,
        None => false,
    }
}

/// Whether a form of these shapes is at most so deep, holds small integers alone and calls functions that stand.
#[cycle(simple)]
pub fn is_simple(world: &World, heap: &Heap, core: &Core, d: u32) -> bool
    ensures { IsTrue result → IsSimple (seen_world heap.now world.now) heap.now core.now }
{
    if d == 0 {
        return false;
    }
    match core {
        Core::Var(_) => true,
        Core::Const(word) => is_small(word),
        Core::If(a, b, c) => {
            let first = is_simple(world, heap, a.get(), d - 1);
            let second = is_simple(world, heap, b.get(), d - 1);
            let third = is_simple(world, heap, c.get(), d - 1);
            first & (second & third)
        }
        Core::Let(bindings, body) => {
            let first = bound_are_simple(world, heap, bindings.as_slice(), d - 1);
            let second = is_simple(world, heap, body.get(), d - 1);
            first & second
        }
        Core::Mv(_) => false,
        Core::MvLet(_, _, _) => false,
        Core::StobjLet { .. } => false,
        Core::WithLocal { .. } => false,
        Core::MustBeEqual(_, _) => false,
        Core::Call(f, actuals) => {
            let first = stands(world, heap, *f);
            let second = are_simple(world, heap, actuals.as_slice(), d - 1);
            first & second
        }
    }
}

#[cycle(simple)]
fn are_simple(world: &World, heap: &Heap, parts: &[Core], d: u32) -> bool
    ensures { IsTrue result → AreSimple (seen_world heap.now world.now) heap.now parts.now }
{
    for part in parts {
        if !is_simple(world, heap, part, d) {
            return false;
        }
    }
    true
}

#[cycle(simple)]
fn bound_are_simple(world: &World, heap: &Heap, bindings: &[(SymId, Core)], d: u32) -> bool
    ensures { IsTrue result → BoundAreSimple (seen_world heap.now world.now) heap.now bindings.now }
{
    for binding in bindings {
        if !is_simple(world, heap, &binding.1, d) {
            return false;
        }
    }
    true
}
