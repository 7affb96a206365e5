//! The roots of a key and its value.

ghost use Rattle.std.specs.Prelude.{◌≡◌, IfOk, OnErr};
ghost use Rattle.acl_heap.specs.Objects.{object_of, Lies};
ghost use Rattle.acl_hash.specs.Pools.{EntryFits, GivesEntry, PutsEntry, Holds};

use acl_base::Word;
use acl_heap::Heap;
use acl_pool::{Pool, Root};
use std::alloc::AllocError;

/// The root of a key, and that of its value.
#[derive(Clone, Copy, Debug, PartialEq, Eq)]
pub struct Entry {
    pub key: Root,
    pub value: Root,
}

/// Puts a key and its value into the pool, or neither.
pub(crate) fn put_entry(
    pool: &mut Pool,
    heap: &Heap,
    key: Word,
    value: Word,
) -> Result<Entry, AllocError>
    requires key { Lies heap.now key }
    requires value { Lies heap.now value }
    ensures ok { IfOk result (λ e. PutsEntry pool.old pool.new e (object_of heap.now key) (object_of heap.now value)) }
    ensures err { OnErr result (Holds pool.old pool.new) }
{
    let key = pool.put(heap, key)?;
    match pool.put(heap, value) {
        Ok(value) => Ok(Entry { key, value }),
        Err(e) => {
            pool.give_back(key);
            Err(e)
        }
    }
}

/// Gives both roots back, if there are any.
pub(crate) fn give_back(pool: &mut Pool, e: Option<Entry>)
    requires { EntryFits pool.old e }
    ensures { GivesEntry pool.old pool.new e }
{
    if let Some(entry) = e {
        pool.give_back(entry.key);
        pool.give_back(entry.value);
    }
}
