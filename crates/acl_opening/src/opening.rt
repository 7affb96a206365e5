//! The world that a session begins with.

ghost use Rattle.std.specs.Prelude.{◌≡◌, IfOk};
ghost use Rattle.model_books.specs.Opening.{opening_world};
ghost use Rattle.acl_heap.specs.Objects.{Extends};
ghost use Rattle.acl_worlds.specs.Contents.{seen_world, WorldLies};

use crate::symbols::symbols_before;
use crate::table::primitives;
use acl_base::SymId;
use acl_heap::Heap;
use acl_terms::Definition;
use acl_worlds::World;
use std::alloc::{AllocError, Global};

/// The number of `*ACL2-EXPORTS*`, and of the first of these symbols.
const EXPORTS: SymId = SymId(165);

/// The number of `*COMMON-LISP-SYMBOLS-FROM-MAIN-LISP-PACKAGE*`.
const MAIN_SYMBOLS: SymId = SymId(166);

/// The world that a session begins with, its constants in the heap.
#[tactic(auto, using(crate::proofs::OpenedLemmas::exports_fresh, crate::proofs::OpenedLemmas::main_fresh, crate::proofs::OpenedLemmas::opened, crate::proofs::OpenedLemmas::opened_lies, acl_heap::specs::Growth::growth))]
pub fn opening_world(alloc: Global, heap: &mut Heap) -> Result<World, AllocError>
    ensures grows { Extends heap.old heap.new }
    ensures ok { IfOk result (λ w. seen_world heap.new w ≡ opening_world) }
    ensures lies { IfOk result (λ w. WorldLies heap.new w) }
{
    let exports = symbols_before(heap, 195, 76)?;
    let main_symbols = symbols_before(heap, 119, 119)?;
    let mut world = World::new(alloc, primitives())?;
    world.add(Definition::Constant {
        name: EXPORTS,
        value: exports,
    })?;
    world.add(Definition::Constant {
        name: MAIN_SYMBOLS,
        value: main_symbols,
    })?;
    Ok(world)
}
