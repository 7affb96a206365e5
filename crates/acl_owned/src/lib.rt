//! Objects that their places own.
#![tactic(auto)]

ghost use Rattle.std.specs.Prelude.{◌≡◌, ◌≤◌, IfOk};
ghost use Rattle.model_objects.specs.Object.{cells, max_weight};
ghost use Rattle.acl_heap.specs.Objects.{object_of, Lies, Denotes, Extends};

mod array;

use acl_base::Word;
use acl_heap::Heap;
use acl_pool::{Pool, Root};
pub use array::ObjectArray;
use std::alloc::{AllocError, Global};
use std::marker::Model;

/// An object outside of every heap, seen as that object.
///
/// It is the root of a pool of its own, so that it moves and ends without a look at its cells. One of no cells takes no memory.
#[derive(Drop)]
pub struct OwnedObject {
    pool: Pool,
    root: Root,
}

impl Model for OwnedObject {
    ghost use Rattle.std.specs.Prelude.{ℕ};
    ghost use Rattle.model_objects.specs.Object.{Object};
    ghost use Rattle.model_objects.specs.Stored.{object_code};
    ghost use Rattle.acl_pool.specs.Roots.{object_at};
    ghost use Rattle.acl_owned.specs.Owned.{Owns};

    ghost Value = { Object ℕ };

    ghost coded = { object_code };

    ghost view = { λ o. object_at o.pool o.root };

    ghost invariant = { λ o. Owns o.pool o.root };
}

impl OwnedObject {
    /// A copy of a heap's object. It is refused for want of memory alone.
    pub fn put(alloc: Global, heap: &Heap, w: Word) -> Result<OwnedObject, AllocError>
        requires { Lies heap.now w }
        ensures { IfOk result (λ o. o ≡ object_of heap.now w) }
    {
        let _count = heap.cells(w);
        let mut pool = Pool::new(alloc);
        let root = pool.put(heap, w)?;
        Ok(OwnedObject { pool, root })
    }

    /// How many cells it takes.
    pub fn cells(&self) -> u64
        ensures is { result ≡ cells self.now }
        ensures most { result ≤ max_weight }
    {
        self.root.cells()
    }

    /// Makes a copy of it in the heap.
    pub fn copy_out(&self, heap: &mut Heap) -> Result<Word, AllocError>
        ensures grows { Extends heap.old heap.new }
        ensures ok { IfOk result (λ w. Denotes heap.new w self.now) }
    {
        self.pool.copy_out(&self.root, heap)
    }

    /// Another one of the same object.
    pub fn copied(&self, alloc: Global) -> Result<OwnedObject, AllocError>
        ensures { IfOk result (λ o. o ≡ self.now) }
    {
        let mut scratch = Heap::new(alloc);
        let w = self.copy_out(&mut scratch)?;
        OwnedObject::put(alloc, &scratch, w)
    }
}
