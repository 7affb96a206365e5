//! The pairs of a map, copied into a heap.
ghost use Rattle.std.specs.Prelude.{◌≡◌, IfOk};
ghost use Rattle.std.specs.List.{IsDistinct};
ghost use Rattle.std.specs.Map.{keys_of};
ghost use Rattle.acl_heap.specs.Objects.{Extends, Denotes};
ghost use Rattle.acl_heap.specs.Equal.{AllLie};
ghost use Rattle.acl_hash.specs.Same.{same_key};
ghost use Rattle.acl_hash.specs.Sorting.{pairs_in, KnowsPairs};
ghost use Rattle.acl_maps.specs.Cells.{AreKeyed, cells_of, pairs_in as pairs_of_cells};
ghost use Rattle.acl_maps.specs.Listing.{listed, IsListing};

use crate::entry::OwnedEntry;
use crate::places::Places;
use acl_base::Word;
use acl_hash::sorted;
use acl_heap::Heap;
use acl_syms::Symbols;
use std::alloc::{AllocError, Global};

/// Copies a key and its value into the heap.
fn copy_entry(heap: &mut Heap, e: &OwnedEntry) -> Result<(Word, Word), AllocError>
    ensures grows { Extends heap.old heap.new }
    ensures key { IfOk result (λ p. Denotes heap.new p.0 e.now.key) }
    ensures value { IfOk result (λ p. Denotes heap.new p.1 e.now.value) }
{
    let key = e.key.copy_out(heap)?;
    let value = e.value.copy_out(heap)?;
    Ok((key, value))
}

/// Copies each key and its value into the heap.
#[tactic(auto, using(crate::proofs::ListLemmas::copy_skips, crate::proofs::ListLemmas::copy_ends))]
fn copy_entries(
    alloc: Global,
    places: &Places,
    heap: &mut Heap,
) -> Result<Vec<(Word, Word)>, AllocError>
    ensures distinct { IsDistinct same_key (keys_of places.now.entries) }
    ensures grows { Extends heap.old heap.new }
    ensures lie { IfOk result (λ ws. AllLie heap.new ws.items) }
    ensures pairs { IfOk result (λ ws. pairs_in heap.new ws.items ≡ listed places.now.entries) }
{
    let mut copied = Vec::new(alloc);
    for (_key, place) in places.iter() {
        if let Some(e) = place {
            let pair = copy_entry(heap, e)?;
            copied.push(pair)?;
        }
    }
    Ok(copied)
}

/// The pairs in the order of their keys.
pub(crate) fn list_pairs(
    alloc: Global,
    places: &Places,
    heap: &mut Heap,
    syms: &Symbols,
) -> Result<Vec<(Word, Word)>, AllocError>
    requires keyed { AreKeyed places.now.entries }
    requires known { KnowsPairs syms.now.symbols (pairs_of_cells (cells_of places.now.entries)) }
    ensures grows { Extends heap.old heap.new }
    ensures ok { IfOk result (λ ws. IsListing syms.now.symbols (cells_of places.now.entries) heap.new ws.items) }
{
    syms.is_table();
    let copied = copy_entries(alloc, places, heap)?;
    let pairs = sorted(alloc, heap, syms, copied.as_slice())?;
    Ok(pairs)
}
