//! The key of an object.

ghost use Rattle.std.specs.Prelude.{◌≡◌, IfOk};
ghost use Rattle.acl_heap.specs.Objects.{object_of, Lies};
ghost use Rattle.acl_hash.specs.Same.{same_key, same_equiv, same_per, writes_of, same_writes};

use crate::bytes::put_item;
use acl_base::Word;
use acl_heap::Heap;
use std::alloc::{AllocError, Global};
use std::hash::{Hash, Hasher};
use std::marker::Model;

/// What an object is found by: its byte form, with symbols by their numbers. Contracts see the object.
#[derive(Drop)]
pub struct Key {
    bytes: Vec<u8>,
}

impl Model for Key {
    ghost use Rattle.std.specs.Prelude.{◌≡◌, ℕ};
    ghost use Rattle.model_objects.specs.Object.{Object};
    ghost use Rattle.model_objects.specs.Stored.{object_code};

    ghost Value = { Object ℕ };

    ghost coded = { object_code };

    ghost use Rattle.acl_hash.specs.Bytes.{object_in, key_bytes};

    ghost view = { λ k. object_in k.bytes.items };

    ghost invariant = { λ k. key_bytes (object_in k.bytes.items) ≡ k.bytes.items };
}

impl Key {
    /// The key of the word's object. It takes time and memory in proportion to the object's weight.
    pub fn make(alloc: Global, heap: &Heap, w: Word) -> Result<Key, AllocError>
        requires { Lies heap.now w }
        ensures { IfOk result (λ k. k ≡ object_of heap.now w) }
    {
        let mut bytes = Vec::new(alloc);
        let mut left = Vec::new(alloc);
        put_item(heap, &mut bytes, &mut left, w)?;
        while let Some(next) = left.pop() {
            put_item(heap, &mut bytes, &mut left, next)?;
        }
        Ok(Key { bytes })
    }

    /// Another key of the same object.
    pub fn copied(&self, alloc: Global) -> Result<Key, AllocError>
        ensures { IfOk result (λ k. k ≡ self.now) }
    {
        let bytes = Vec::from_slice(alloc, self.bytes.as_slice())?;
        Ok(Key { bytes })
    }
}

impl PartialEq for Key {
    ghost eq = { same_key };

    ghost laws = { same_per };

    fn eq(&self, other: &Key) -> bool {
        self.bytes == other.bytes
    }
}

impl Eq for Key {
    ghost laws = { same_equiv };
}

impl Hash for Key {
    ghost hash_input = { writes_of };

    ghost respects_eq = { same_writes };

    fn hash<H: Hasher>(&self, state: &mut H) {
        state.write(self.bytes.as_slice());
    }
}
