//! Hash fields.

ghost use Rattle.std.specs.Prelude.{◌≡◌, [], false, Some, None, IsSome, IfOk, OnOk, OnErr};
ghost use Rattle.std.specs.Option.{option_copied};
ghost use Rattle.acl_heap.specs.Objects.{object_of, Lies, Extends};
ghost use Rattle.acl_hash.specs.Places.{place_at, entry_at, part_of, entry_count, one_of as ones, Changes, tidied};
ghost use Rattle.acl_hash.specs.Pools.{Fits, Puts, Removes, Clears, Refuses};
ghost use Rattle.acl_hash.specs.Sorting.{KnowsField, IsListing};

use crate::entry::{give_back, put_entry};
use crate::listing::list_pairs;
use crate::places::{Places, make_at, make_room, put_at, swap_at, take_at, tidy_at};
use crate::{Entry, Key};
use acl_base::Word;
use acl_heap::Heap;
use acl_pool::{Pool, Root};
use acl_syms::Symbols;
use std::alloc::{AllocError, Global};
use std::collections::HashMap;

/// A hash field: from keys to the roots of key and value in a pool. A place may be empty for a while; only `swap` and
/// `tidy` see that it is there.
#[derive(Drop)]
pub struct HashField {
    places: Places,
    full: u64,
    ghost counted: { full ≡ entry_count places.entries },
}

impl HashField {
    /// A field without keys. It takes no memory.
    pub fn new(alloc: Global) -> HashField
        ensures { result.places.entries ≡ [] }
    {
        HashField {
            places: HashMap::new(alloc),
            full: 0,
        }
    }

    /// The root of the key's value.
    pub fn get(&self, k: &Key) -> Option<&Root>
        ensures { option_copied result ≡ part_of false (entry_at self.now.places.entries k.now) }
    {
        match self.places.get(k) {
            Some(Some(e)) => Some(&e.value),
            Some(None) => None,
            None => None,
        }
    }

    /// How many keys have a value.
    pub fn count(&self) -> u64
        ensures { result ≡ entry_count self.now.places.entries }
    {
        self.full
    }

    /// The pairs in the total order of keys, with symbols in the order of their names.
    pub fn pairs(
        &self,
        alloc: Global,
        pool: &Pool,
        heap: &mut Heap,
        syms: &Symbols,
    ) -> Result<Vec<(Word, Word)>, AllocError>
        requires fits { Fits pool.now self.now.places.entries }
        requires known { KnowsField syms.now.symbols pool.now self.now.places.entries }
        ensures grows { Extends heap.old heap.new }
        ensures ok { IfOk result (λ ws. IsListing syms.now.symbols pool.now self.now.places.entries heap.new ws.items) }
        ensures err { OnErr result (heap.new ≡ heap.old) }
    {
        let mark = heap.mark();
        match list_pairs(alloc, &self.places, pool, heap, syms) {
            Ok(pairs) => Ok(pairs),
            Err(e) => {
                heap.reset(mark);
                Err(e)
            }
        }
    }

    /// Gives the key this value. The room, the key and the value are there before the field changes.
    pub fn put(
        &mut self,
        pool: &mut Pool,
        heap: &Heap,
        k: Key,
        key: Word,
        value: Word,
    ) -> Result<(), AllocError>
        requires fits { Fits pool.old self.old.places.entries }
        requires key { Lies heap.now key }
        requires value { Lies heap.now value }
        requires of { k ≡ object_of heap.now key }
        ensures ok { OnOk result (Puts pool.old pool.new self.old.places.entries self.new.places.entries k (object_of heap.now value)) }
        ensures err { OnErr result (Refuses pool.old pool.new self.old.places.entries self.new.places.entries) }
    {
        make_room(&mut self.places)?;
        let entry = put_entry(pool, heap, key, value)?;
        let replaced = put_at(&mut self.places, k, entry);
        self.full = self.full + 1 - one_of(&replaced);
        give_back(pool, replaced);
        Ok(())
    }

    /// Takes the key and its value away.
    pub fn remove(&mut self, pool: &mut Pool, k: &Key)
        requires { Fits pool.old self.old.places.entries }
        ensures { Removes pool.old pool.new self.old.places.entries self.new.places.entries k.now }
    {
        let taken = take_at(&mut self.places, k);
        self.full -= one_of(&taken);
        give_back(pool, taken);
    }

    /// Takes all keys and values away.
    pub fn clear(&mut self, pool: &mut Pool)
        requires { Fits pool.old self.old.places.entries }
        ensures empty { self.new.places.entries ≡ [] }
        ensures clears { Clears pool.old pool.new self.old.places.entries }
    {
        give_all_back(pool, &self.places);
        self.places.clear();
        self.full = 0;
    }

    /// Makes an empty place for the key, or leaves the place that is there.
    pub fn place(&mut self, k: Key) -> Result<(), AllocError>
        ensures ok { OnOk result (Changes self.old.places.entries self.new.places.entries k (Some (entry_at self.old.places.entries k))) }
        ensures err { OnErr result (self.new.places.entries ≡ self.old.places.entries) }
    {
        make_at(&mut self.places, k)?;
        Ok(())
    }

    /// Puts an entry, or nothing, into the place of the key, and gives what was there. It takes no memory.
    pub fn swap(&mut self, k: &Key, e: Option<Entry>) -> Option<Entry>
        requires { IsSome (place_at self.old.places.entries k.now) }
        ensures was { result ≡ entry_at self.old.places.entries k.now }
        ensures changes { Changes self.old.places.entries self.new.places.entries k.now (Some e) }
    {
        let more = one_of(&e);
        let old = swap_at(&mut self.places, k, e);
        self.full = self.full + more - one_of(&old);
        old
    }

    /// Takes the place of the key away, if it is empty. It takes no memory.
    pub fn tidy(&mut self, k: &Key)
        ensures { Changes self.old.places.entries self.new.places.entries k.now (tidied (place_at self.old.places.entries k.now)) }
    {
        tidy_at(&mut self.places, k);
    }
}

fn one_of(e: &Option<Entry>) -> u64
    ensures { result ≡ ones e.now }
{
    match e {
        Some(_) => 1,
        None => 0,
    }
}

fn give_all_back(pool: &mut Pool, places: &Places)
    requires { Fits pool.old places.now.entries }
    ensures { Clears pool.old pool.new places.now.entries }
{
    for (_key, place) in places.iter() {
        give_back(pool, *place);
    }
}
