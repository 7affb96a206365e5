//! `ObjectMap`.
ghost use Rattle.std.specs.Prelude.{◌≡◌, ◌+◌, [], Some, None, IfOk, OnOk, OnErr};
ghost use Rattle.model_prims.specs.Kinds.{by_number};
ghost use Rattle.model_lists.specs.Lists.{value_at};
ghost use Rattle.acl_heap.specs.Objects.{Extends};
ghost use Rattle.acl_hash.specs.Sorting.{KnowsPairs};
ghost use Rattle.acl_owned.specs.Owned.{IsSum};
ghost use Rattle.acl_maps.specs.Held.{cells_held, entry_cells};
ghost use Rattle.acl_maps.specs.Listing.{IsListing};
ghost use Rattle.acl_maps.specs.Cells.{full, with_cell, emptied, found_in, pairs_in, count_in, value_of, one_of as ones, Finds, IsSuited};

use crate::counting::{cells_of, count_entries};
use crate::entry::OwnedEntry;
use crate::held::HeldPlace;
use crate::listing::list_pairs;
use crate::places::{Places, empty_at, put_at, remove_at, set_at};
use acl_base::Word;
use acl_hash::Key;
use acl_heap::Heap;
use acl_syms::Symbols;
use std::alloc::{AllocError, Global};
use std::collections::HashMap;
use std::marker::Model;

/// From keys to values. Contracts see a list of cells in the order of keys by the numbers of symbols, each key once.
/// A cell has a value, or is a hole: only `back` sees that it is there.
#[derive(Drop)]
pub struct ObjectMap {
    places: Places,
    full: u64,
}

impl Model for ObjectMap {
    ghost use Rattle.std.specs.Prelude.{ℕ, List};
    ghost use Rattle.std.specs.Coded.{coded×, coded_list};
    ghost use Rattle.model_objects.specs.Object.{Object};
    ghost use Rattle.model_objects.specs.Stored.{object_code};
    ghost use Rattle.acl_maps.specs.Cells.{cells_of, Fits};

    ghost Value = { List (Object ℕ × Object ℕ) };

    ghost coded = { coded_list (coded× object_code object_code) };

    ghost view = { λ m. cells_of m.places.entries };

    ghost invariant = { λ m. Fits m.places.entries m.full };
}

impl ObjectMap {
    /// A map without keys. It takes no memory.
    #[tactic(auto, using(crate::proofs::CellLemmas::no_cells, crate::proofs::CountLemmas::count_nothing))]
    pub fn new(alloc: Global) -> ObjectMap
        ensures { result ≡ [] }
    {
        ObjectMap {
            places: HashMap::new(alloc),
            full: 0,
        }
    }

    /// A copy of the key's value in a heap, if it has one.
    #[tactic(auto, using(crate::proofs::CellLemmas::cells_found, crate::proofs::CellLemmas::value_with))]
    pub fn get(&self, k: &Key, heap: &mut Heap) -> Result<Option<Word>, AllocError>
        ensures grows { Extends heap.old heap.new }
        ensures ok { IfOk result (λ r. Finds heap.new (found_in k.now self.now) r) }
    {
        match self.places.get(k) {
            Some(Some(e)) => {
                let w = e.value.copy_out(heap)?;
                Ok(Some(w))
            }
            Some(None) => Ok(None),
            None => Ok(None),
        }
    }

    /// Copies of the pairs in a heap, in the total order of keys, with symbols in the order of their names. What is refused leaves the heap as it was.
    pub fn pairs(
        &self,
        alloc: Global,
        heap: &mut Heap,
        syms: &Symbols,
    ) -> Result<Vec<(Word, Word)>, AllocError>
        requires { KnowsPairs syms.now.symbols (pairs_in self.now) }
        ensures grows { Extends heap.old heap.new }
        ensures ok { IfOk result (λ ws. IsListing syms.now.symbols self.now heap.new ws.items) }
        ensures refused { OnErr result (heap.new ≡ heap.old) }
    {
        let mark = heap.mark();
        match list_pairs(alloc, &self.places, heap, syms) {
            Ok(pairs) => Ok(pairs),
            Err(e) => {
                heap.reset(mark);
                Err(e)
            }
        }
    }

    /// Gives the key the entry's value, and hands out what stood there. It is refused for want of memory alone, and changes nothing then.
    #[tactic(auto, using(crate::proofs::CellLemmas::cells_changed, crate::proofs::CellLemmas::keyed_changed, crate::proofs::CountLemmas::count_changed, crate::proofs::CountLemmas::few_counted, crate::proofs::CellLemmas::cells_found, crate::proofs::CellLemmas::cells_back, crate::proofs::CellLemmas::put_suited))]
    pub fn put(&mut self, alloc: Global, k: Key, e: OwnedEntry) -> Result<HeldPlace, AllocError>
        requires { e.key ≡ k }
        ensures put { OnOk result (self.new ≡ with_cell k (Some (full e.value)) self.old) }
        ensures held { IfOk result (λ h. h ≡ (k, value_at by_number k self.old)) }
        ensures undone { IfOk result (λ h. with_cell h.0 h.1 self.new ≡ self.old) }
        ensures suited { IfOk result (λ h. IsSuited h self.new) }
        ensures refused { OnErr result (self.new ≡ self.old) }
    {
        let noted = k.copied(alloc)?;
        let place = put_at(&mut self.places, k, e)?;
        self.full = self.full + 1 - one_of(&place);
        Ok(HeldPlace { key: noted, place })
    }

    /// Leaves a hole in place of the key's value, and hands out what stood there. It is refused for want of memory alone, and changes nothing then.
    #[tactic(auto, using(crate::proofs::CellLemmas::cells_emptied, crate::proofs::CountLemmas::count_changed, crate::proofs::CellLemmas::keyed_changed, crate::proofs::CellLemmas::cells_found, crate::proofs::CellLemmas::emptied_keyed, crate::proofs::CellLemmas::cells_back, crate::proofs::CellLemmas::emptied_suited))]
    pub fn empty(&mut self, alloc: Global, k: &Key) -> Result<HeldPlace, AllocError>
        ensures emptied { OnOk result (self.new ≡ emptied k.now self.old) }
        ensures held { IfOk result (λ h. h ≡ (k.now, value_at by_number k.now self.old)) }
        ensures undone { IfOk result (λ h. with_cell h.0 h.1 self.new ≡ self.old) }
        ensures suited { IfOk result (λ h. IsSuited h self.new) }
        ensures refused { OnErr result (self.new ≡ self.old) }
    {
        let noted = k.copied(alloc)?;
        let place = empty_at(&mut self.places, k);
        self.full -= one_of(&place);
        Ok(HeldPlace { key: noted, place })
    }

    /// Puts what stood at a key back, and tells how many cells what stands there takes, which ends. It takes no memory.
    #[tactic(auto, using(crate::proofs::CellLemmas::cells_changed, crate::proofs::CellLemmas::keyed_changed, crate::proofs::CountLemmas::count_changed, crate::proofs::CountLemmas::few_counted, crate::proofs::CellLemmas::place_there, crate::proofs::HeldLemmas::found_held))]
    pub fn back(&mut self, held: HeldPlace) -> u64
        requires { IsSuited held self.old }
        ensures back { self.new ≡ with_cell held.0 held.1 self.old }
        ensures gone { result ≡ entry_cells held.0 (found_in held.0 self.old) }
    {
        let HeldPlace { key, place } = held;
        let more = one_of(&place);
        let old = match place {
            Some(e) => set_at(&mut self.places, &key, e),
            None => remove_at(&mut self.places, &key),
        };
        self.full = self.full + more - one_of(&old);
        cells_of(&old)
    }

    /// Takes the key and its value away, and tells how many cells they took. It takes no memory.
    #[tactic(auto, using(crate::proofs::CellLemmas::cells_changed, crate::proofs::CellLemmas::keyed_changed, crate::proofs::CountLemmas::count_changed, crate::proofs::CountLemmas::few_counted, crate::proofs::HeldLemmas::found_held))]
    pub fn remove(&mut self, k: &Key) -> u64
        ensures removed { self.new ≡ with_cell k.now None self.old }
        ensures gone { result ≡ entry_cells k.now (found_in k.now self.old) }
    {
        let old = remove_at(&mut self.places, k);
        self.full -= one_of(&old);
        cells_of(&old)
    }

    /// Takes all keys and values away. It takes no memory.
    #[tactic(auto, using(crate::proofs::CellLemmas::no_cells, crate::proofs::CountLemmas::count_nothing))]
    pub fn clear(&mut self)
        ensures { self.new ≡ [] }
    {
        self.places.clear();
        self.full = 0;
    }

    /// How many cells all keys and values take beside so many others, where all are fewer than 2^64. It looks at each key.
    #[tactic(auto, using(crate::proofs::HeldLemmas::held_listed))]
    pub fn counted(&self, start: u64) -> Option<u64>
        ensures { IsSum result (start + cells_held self.now) }
    {
        count_entries(&self.places, start)
    }

    /// How many keys have a value. It takes no memory.
    pub fn count(&self) -> u64
        ensures { result ≡ count_in self.now }
    {
        self.full
    }
}

fn one_of(place: &Option<Option<OwnedEntry>>) -> u64
    ensures { result ≡ ones (value_of place.now) }
{
    match place {
        Some(Some(_)) => 1,
        Some(None) => 0,
        None => 0,
    }
}
