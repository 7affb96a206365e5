//! Whether forms are small.

ghost use Rattle.std.specs.Prelude.{◌≡◌, IsTrue};
ghost use Rattle.acl_heap.specs.Objects.{reach};
ghost use Rattle.acl_check_rows.specs.Small.{Small, AllSmall, BoundSmall};

use acl_base::{SymId, Word};
use acl_heap::Heap;
use acl_terms::Core;

fn is_small(word: &Word) -> bool
    ensures { IsTrue result → reach word.now ≡ 0 }
{
    match word {
        Word::Small(_) => true,
        Word::Big(_) => false,
        Word::Sym(_) => false,
        Word::Str(_) => false,
        Word::Cons(_) => false,
    }
}

/// Whether a form is at most so deep, has few children at a node, and holds small integers alone.
#[cycle(fits)]
pub fn fits(core: &Core, heap: &Heap, d: u32) -> bool
    ensures { IsTrue result → Small heap.now d core.now }
{
    if d == 0 {
        return false;
    }
    match core {
        Core::Var(_) => true,
        Core::Const(word) => is_small(word),
        Core::If(a, b, c) => {
            let first = fits(a.get(), heap, d - 1);
            let second = fits(b.get(), heap, d - 1);
            let third = fits(c.get(), heap, d - 1);
            first & (second & third)
        }
        Core::Let(bindings, body) => {
            let few = bindings.len() <= 4;
            let first = bound_fit(bindings.as_slice(), heap, d - 1);
            let second = fits(body.get(), heap, d - 1);
            few & (first & second)
        }
        Core::Mv(parts) => {
            let few = parts.len() <= 4;
            let all = all_fit(parts.as_slice(), heap, d - 1);
            few & all
        }
        Core::MvLet(_, given, body) => {
            let first = fits(given.get(), heap, d - 1);
            let second = fits(body.get(), heap, d - 1);
            first & second
        }
        Core::StobjLet {
            bindings,
            producer,
            consumer,
            ..
        } => {
            let bound = bound_fit(bindings.as_slice(), heap, d - 1);
            let first = fits(producer.get(), heap, d - 1);
            let second = fits(consumer.get(), heap, d - 1);
            bound & (first & second)
        }
        Core::WithLocal { producer, body, .. } => {
            let first = fits(producer.get(), heap, d - 1);
            let second = fits(body.get(), heap, d - 1);
            first & second
        }
        Core::MustBeEqual(logic, exec) => {
            let first = fits(logic.get(), heap, d - 1);
            let second = fits(exec.get(), heap, d - 1);
            first & second
        }
        Core::Call(_, actuals) => {
            let few = actuals.len() <= 4;
            let all = all_fit(actuals.as_slice(), heap, d - 1);
            few & all
        }
    }
}

#[cycle(fits)]
fn all_fit(parts: &[Core], heap: &Heap, d: u32) -> bool
    ensures { IsTrue result → AllSmall heap.now d parts.now }
{
    for part in parts {
        if !fits(part, heap, d) {
            return false;
        }
    }
    true
}

#[cycle(fits)]
fn bound_fit(bindings: &[(SymId, Core)], heap: &Heap, d: u32) -> bool
    ensures { IsTrue result → BoundSmall heap.now d bindings.now }
{
    for binding in bindings {
        if !fits(&binding.1, heap, d) {
            return false;
        }
    }
    true
}
