//! A key with its value.
ghost use Rattle.std.specs.Prelude.{◌≡◌, ◌+◌, IfOk};
ghost use Rattle.model_objects.specs.Object.{cells};
ghost use Rattle.acl_heap.specs.Objects.{object_of, Lies};

use acl_base::Word;
use acl_heap::Heap;
use acl_owned::OwnedObject;
use std::alloc::{AllocError, Global};

/// A key and its value, each an object of its own.
#[derive(Drop)]
pub struct OwnedEntry {
    pub key: OwnedObject,
    pub value: OwnedObject,
}

impl OwnedEntry {
    /// Copies of a key and a value of a heap. It is refused for want of memory alone.
    pub fn make(
        alloc: Global,
        heap: &Heap,
        key: Word,
        value: Word,
    ) -> Result<OwnedEntry, AllocError>
        requires key { Lies heap.now key }
        requires value { Lies heap.now value }
        ensures key { IfOk result (λ e. e.key ≡ object_of heap.now key) }
        ensures value { IfOk result (λ e. e.value ≡ object_of heap.now value) }
    {
        let key = OwnedObject::put(alloc, heap, key)?;
        let value = OwnedObject::put(alloc, heap, value)?;
        Ok(OwnedEntry { key, value })
    }
    /// How many cells the key and the value take.
    pub fn cells(&self) -> u64
        ensures { result ≡ cells self.now.key + cells self.now.value }
    {
        self.key.cells() + self.value.cells()
    }
}
