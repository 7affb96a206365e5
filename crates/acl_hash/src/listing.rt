//! The pairs of a field, copied out of its pool.

ghost use Rattle.std.specs.Prelude.{◌≡◌, Some, IfOk};
ghost use Rattle.std.specs.List.{IsDistinct};
ghost use Rattle.std.specs.Map.{keys_of};
ghost use Rattle.acl_heap.specs.Objects.{Extends, Denotes};
ghost use Rattle.acl_heap.specs.Equal.{AllLie};
ghost use Rattle.acl_pool.specs.Roots.{object_at};
ghost use Rattle.acl_hash.specs.Same.{same_key};
ghost use Rattle.acl_hash.specs.Pools.{EntryFits, Fits};
ghost use Rattle.acl_hash.specs.Sorting.{pairs_in, listed, KnowsField, IsListing};

use crate::Entry;
use crate::places::Places;
use crate::sorting::sorted;
use acl_base::Word;
use acl_heap::Heap;
use acl_pool::Pool;
use acl_syms::Symbols;
use std::alloc::{AllocError, Global};

/// Copies a key and its value into the heap.
fn copy_entry(pool: &Pool, heap: &mut Heap, e: Entry) -> Result<(Word, Word), AllocError>
    requires { EntryFits pool.now (Some e) }
    ensures grows { Extends heap.old heap.new }
    ensures key { IfOk result (λ p. Denotes heap.new p.0 (object_at pool.now e.key)) }
    ensures value { IfOk result (λ p. Denotes heap.new p.1 (object_at pool.now e.value)) }
{
    let key = pool.copy_out(&e.key, heap)?;
    let value = pool.copy_out(&e.value, heap)?;
    Ok((key, value))
}

/// Copies each key and its value into the heap.
fn copy_entries(
    alloc: Global,
    places: &Places,
    pool: &Pool,
    heap: &mut Heap,
) -> Result<Vec<(Word, Word)>, AllocError>
    requires { Fits pool.now places.now.entries }
    ensures distinct { IsDistinct same_key (keys_of places.now.entries) }
    ensures grows { Extends heap.old heap.new }
    ensures lie { IfOk result (λ ws. AllLie heap.new ws.items) }
    ensures pairs { IfOk result (λ ws. pairs_in heap.new ws.items ≡ listed pool.now places.now.entries) }
{
    let mut copied = Vec::new(alloc);
    for (_key, place) in places.iter() {
        if let Some(e) = *place {
            let pair = copy_entry(pool, heap, e)?;
            copied.push(pair)?;
        }
    }
    Ok(copied)
}

/// The pairs in the order of their keys.
pub(crate) fn list_pairs(
    alloc: Global,
    places: &Places,
    pool: &Pool,
    heap: &mut Heap,
    syms: &Symbols,
) -> Result<Vec<(Word, Word)>, AllocError>
    requires fits { Fits pool.now places.now.entries }
    requires known { KnowsField syms.now.symbols pool.now places.now.entries }
    ensures grows { Extends heap.old heap.new }
    ensures ok { IfOk result (λ ws. IsListing syms.now.symbols pool.now places.now.entries heap.new ws.items) }
{
    syms.is_table();
    let copied = copy_entries(alloc, places, pool, heap)?;
    let pairs = sorted(alloc, heap, syms, copied.as_slice())?;
    Ok(pairs)
}
