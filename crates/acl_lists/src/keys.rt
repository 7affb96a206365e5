//! Pairs by their keys.

ghost use Rattle.std.specs.Prelude.{◌≡◌, ◌<◌, ◌∷◌, [], length, map, option_map, IfSome, IfNone, IfOk, OnErr};
ghost use Rattle.model_objects.specs.Object.{Object};
ghost use Rattle.model_prims.specs.Kinds.{by_number};
ghost use Rattle.model_lists.specs.Lists as lists;
ghost use Rattle.model_lists.specs.Lists.{scalar_of, pairs_of, value_at, without_key, key_count};
ghost use Rattle.acl_heap.specs.Objects.{object_of, Lies};
ghost use Rattle.acl_lists.specs.Tables.{list_at, Grown};
ghost use Rattle.acl_lists.specs.Pairs.{Within, scalar_at, scalar_found, pair_at, pairs_at, keys_of, AllEntriesIn};

use crate::cell::{Cell, ListId};
use crate::counting::count_different;
use crate::table::Lists;
use acl_base::Word;
use acl_hash::Key;
use acl_heap::Heap;
use std::alloc::{AllocError, Global};

/// A pair.
#[derive(Clone, Copy, Debug)]
pub(crate) struct Entry {
    pub key: ListId,
    pub value: ListId,
}

/// A pair, and the older ones.
#[derive(Clone, Copy, Debug)]
pub(crate) struct Newest {
    pub entry: Entry,
    pub older: ListId,
}

impl Lists {
    /// The newest pair, where there is one.
    #[tactic(auto, using(crate::proofs::KeyLemmas::pairs_value, crate::proofs::KeyLemmas::pairs_none, crate::proofs::KeyLemmas::pairs_pair, crate::proofs::KeyLemmas::pairs_end, crate::proofs::KeyLemmas::pairs_item, crate::proofs::KeyLemmas::pair_below))]
    fn newest(&self, list: ListId) -> Option<Newest>
        requires { list.0 < length self.now }
        ensures is { IfSome result (λ p. pairs_of (list_at self.now list) ≡ pair_at self.now p.entry ∷ pairs_of (list_at self.now p.older)) }
        ensures key { IfSome result (λ p. p.entry.key.0 < list.0) }
        ensures value { IfSome result (λ p. p.entry.value.0 < list.0) }
        ensures older { IfSome result (λ p. p.older.0 < list.0) }
        ensures none { IfNone result (pairs_of (list_at self.now list) ≡ []) }
    {
        self.is_table();
        match self.cell(list) {
            Cell::Value(_) => None,
            Cell::NoPairs => None,
            Cell::Pair { key, value, older } => Some(Newest {
                entry: Entry {
                    key: *key,
                    value: *value,
                },
                older: *older,
            }),
            Cell::End => None,
            Cell::Item { .. } => None,
        }
    }

    /// What a value is found by.
    fn key_of(&self, alloc: Global, n: ListId) -> Result<Key, AllocError>
        requires { n.0 < length self.now }
        ensures { IfOk result (λ k. k ≡ scalar_at self.now n) }
    {
        let mut scratch = Heap::new(alloc);
        let w = self.copy_out(n, &mut scratch)?;
        let key = Key::make(alloc, &scratch, w)?;
        Ok(key)
    }

    /// The value of the newest pair that has the key.
    #[tactic(auto, using(crate::proofs::KeyLemmas::value_found, crate::proofs::KeyLemmas::value_further, crate::proofs::KeyLemmas::value_missing))]
    fn find(&self, alloc: Global, list: ListId, wanted: &Key) -> Result<Option<ListId>, AllocError>
        requires { list.0 < length self.now }
        ensures within { IfOk result (λ o. Within self.now o) }
        ensures is { IfOk result (λ o. scalar_found self.now o ≡ value_at by_number wanted.now (pairs_of (list_at self.now list))) }
    {
        let mut at = list;
        while let Some(newest) = self.newest(at) {
            let here = self.key_of(alloc, newest.entry.key)?;
            if *wanted == here {
                return Ok(Some(newest.entry.value));
            }
            at = newest.older;
        }
        Ok(None)
    }

    /// The value of a key in a hash field, where there is one.
    pub fn value_at(
        &self,
        alloc: Global,
        list: ListId,
        heap: &Heap,
        key: Word,
    ) -> Result<Option<ListId>, AllocError>
        requires list { list.0 < length self.now }
        requires key { Lies heap.now key }
        ensures within { IfOk result (λ o. Within self.now o) }
        ensures is { IfOk result (λ o. scalar_found self.now o ≡ value_at by_number (object_of heap.now key) (pairs_of (list_at self.now list))) }
    {
        let wanted = Key::make(alloc, heap, key)?;
        let found = self.find(alloc, list, &wanted)?;
        Ok(found)
    }

    /// The keys of all pairs, the newest first.
    #[tactic(auto, using(crate::proofs::KeyLemmas::keys_start, crate::proofs::KeyLemmas::keys_step, crate::proofs::KeyLemmas::keys_whole))]
    fn keys(&self, alloc: Global, list: ListId) -> Result<Vec<Key>, AllocError>
        requires { list.0 < length self.now }
        ensures { IfOk result (λ ks. ks.items ≡ keys_of (pairs_of (list_at self.now list))) }
    {
        let mut keys = Vec::new(alloc);
        let mut at = list;
        while let Some(newest) = self.newest(at) {
            let key = self.key_of(alloc, newest.entry.key)?;
            keys.push(key)?;
            at = newest.older;
        }
        Ok(keys)
    }

    /// How many different keys a hash field has.
    #[tactic(auto, using(crate::proofs::CountLemmas::count_whole))]
    pub fn key_count(&self, alloc: Global, list: ListId) -> Result<u64, AllocError>
        requires { list.0 < length self.now }
        ensures { IfOk result (λ n. n ≡ key_count by_number (pairs_of (list_at self.now list))) }
    {
        let keys = self.keys(alloc, list)?;
        let count = count_different(keys.as_slice());
        Ok(count)
    }

    /// The pairs that have another key.
    #[tactic(auto, using(crate::proofs::KeyLemmas::others_start, crate::proofs::KeyLemmas::others_whole))]
    fn others(&self, alloc: Global, list: ListId, wanted: &Key) -> Result<Vec<Entry>, AllocError>
        requires { list.0 < length self.now }
        ensures within { IfOk result (λ es. AllEntriesIn self.now es.items) }
        ensures are { IfOk result (λ es. pairs_at self.now es.items ≡ without_key by_number wanted.now (pairs_of (list_at self.now list))) }
    {
        let mut kept = Vec::new(alloc);
        let mut at = list;
        while let Some(newest) = self.newest(at) {
            let here = self.key_of(alloc, newest.entry.key)?;
            if *wanted != here {
                kept.push(newest.entry)?;
            }
            at = newest.older;
        }
        Ok(kept)
    }

    /// A hash field with these pairs, the newest first. What is refused has added some cells.
    #[tactic(auto, using(crate::proofs::KeyLemmas::pairs_start, crate::proofs::KeyLemmas::pairs_step, crate::proofs::KeyLemmas::pairs_key, crate::proofs::KeyLemmas::pairs_value_in, crate::proofs::KeyLemmas::pairs_at_in, crate::proofs::KeyLemmas::pairs_grown, crate::proofs::KeyLemmas::pairs_whole))]
    fn put_pairs(&mut self, entries: Vec<Entry>) -> Result<ListId, AllocError>
        requires { AllEntriesIn self.old entries.items }
        ensures within { IfOk result (λ n. n.0 < length self.new) }
        ensures is { IfOk result (λ n. list_at self.new n ≡ lists.Pairs (pairs_at self.old entries.items)) }
        ensures grows { Grown self.old self.new }
    {
        let mut left = entries;
        let mut at = self.no_pairs()?;
        while let Some(entry) = left.pop() {
            at = self.put_pair(entry.key, entry.value, at)?;
        }
        Ok(at)
    }

    /// The hash field without the pairs that have the key.
    #[tactic(auto, using(crate::proofs::BuildLemmas::cut_back, crate::proofs::BuildLemmas::cut_grown, crate::proofs::BuildLemmas::cut_within, crate::proofs::TableLemmas::grown_same))]
    pub fn without_key(
        &mut self,
        alloc: Global,
        list: ListId,
        heap: &Heap,
        key: Word,
    ) -> Result<ListId, AllocError>
        requires list { list.0 < length self.old }
        requires key { Lies heap.now key }
        ensures within { IfOk result (λ n. n.0 < length self.new) }
        ensures is { IfOk result (λ n. list_at self.new n ≡ lists.Pairs (without_key by_number (object_of heap.now key) (pairs_of (list_at self.old list)))) }
        ensures grows { Grown self.old self.new }
        ensures err { OnErr result (self.new ≡ self.old) }
    {
        let wanted = Key::make(alloc, heap, key)?;
        let kept = self.others(alloc, list, &wanted)?;
        let before = self.len();
        match self.put_pairs(kept) {
            Ok(n) => Ok(n),
            Err(refused) => {
                self.cut_to(before);
                Err(refused)
            }
        }
    }
}
