//! Hash fields of a store's objects.
ghost use Rattle.std.specs.Prelude.{◌≡◌, ◌+◌, ◌≤◌, [], ◌∷◌, reverse, true, false, Some, None, IfOk, OnOk, OnErr};
ghost use Rattle.acl_heap.specs.Objects.{object_of, Lies};
ghost use Rattle.acl_heap.specs.Objects as objects;
ghost use Rattle.model_prims.specs.Kinds.{by_number};
ghost use Rattle.model_lists.specs.Lists.{without_key};
ghost use Rattle.acl_maps.specs.Cells.{full, with_cell, emptied};
ghost use Rattle.acl_fields.specs.Held.{change_cells};
ghost use Rattle.acl_store.specs.Calls.{StayTyped};
ghost use Rattle.acl_store.specs.Counts.{IsCounted};
ghost use Rattle.acl_store.specs.Journals.{StayWritable};
ghost use Rattle.acl_fields.specs.Changes.{IsChange, changed};
ghost use Rattle.acl_store.specs.Tables.{CountsAt, FindsAt, IsHash, IsKnownHash, ListsAt, IsTabled, IsTableNoted, PairsRemember, WritesPairs, pairs_changed};
ghost use Rattle.acl_fields.specs.Views.{view};

use crate::store::{Store, is_word, less};
use acl_base::{NodeId, Word};
use acl_fields::Change;
use acl_hash::Key;
use acl_heap::Heap;
use acl_maps::OwnedEntry;
use acl_syms::Symbols;
use std::alloc::AllocError;

impl Store {
    /// A copy of the value of a key in the heap, if it has one. What is refused leaves the heap as it was.
    pub fn hash_get(
        &self,
        n: NodeId,
        field: u32,
        k: &Key,
        heap: &mut Heap,
    ) -> Result<Option<Word>, AllocError>
        requires { IsHash (view self.now.nodes.items) n.0 field }
        ensures grows { objects.Extends heap.old heap.new }
        ensures ok { IfOk result (λ r. FindsAt (view self.now.nodes.items) n.0 field k.now heap.new r) }
        ensures refused { OnErr result (heap.new ≡ heap.old) }
    {
        let mark = heap.mark();
        match self.nodes[n.0 as usize].find(field as usize, k, heap) {
            Ok(found) => Ok(found),
            Err(e) => {
                heap.reset(mark);
                Err(e)
            }
        }
    }

    /// Copies of the pairs in the heap, in the total order of keys. What is refused leaves the heap as it was.
    pub fn hash_pairs(
        &self,
        n: NodeId,
        field: u32,
        heap: &mut Heap,
        syms: &Symbols,
    ) -> Result<Vec<(Word, Word)>, AllocError>
        requires { IsKnownHash syms.now.symbols (view self.now.nodes.items) n.0 field }
        ensures grows { objects.Extends heap.old heap.new }
        ensures ok { IfOk result (λ ws. ListsAt syms.now.symbols (view self.now.nodes.items) n.0 field heap.new ws.items) }
        ensures refused { OnErr result (heap.new ≡ heap.old) }
    {
        match self.nodes[n.0 as usize].pairs(self.alloc, field as usize, heap, syms) {
            Ok(pairs) => Ok(pairs),
            Err(e) => Err(e),
        }
    }

    /// How many different keys there are. It takes no memory.
    pub fn hash_count(&self, n: NodeId, field: u32) -> u64
        requires { IsHash (view self.now.nodes.items) n.0 field }
        ensures { CountsAt (view self.now.nodes.items) n.0 field result }
    {
        self.nodes[n.0 as usize].count(field as usize)
    }

    // Changes a hash field. With what the change brings there would be so many cells.
    fn change_local(
        &mut self,
        n: NodeId,
        field: u32,
        change: Change,
        most: u64,
    ) -> Result<(), AllocError>
        requires hash { IsHash (view self.old.nodes.items) n.0 field }
        requires change { IsChange change }
        requires counted { IsCounted self.old.held (view self.old.nodes.items) self.old.notes.items }
        requires most { most ≡ self.old.held + change_cells change }
        ensures put { OnOk result (IsTabled (view self.old.nodes.items) n.0 field (changed change) (view self.new.nodes.items)) }
        ensures refused { OnErr result (view self.new.nodes.items ≡ view self.old.nodes.items) }
        ensures notes { self.new.notes.items ≡ self.old.notes.items }
        ensures first { self.new.first ≡ self.old.first }
        ensures open { self.new.is_open ≡ self.old.is_open }
        ensures counted { IsCounted self.new.held (view self.new.nodes.items) self.new.notes.items }
    {
        match self.nodes[n.0 as usize].change(self.alloc, field as usize, change) {
            Ok(ended) => {
                self.held = less(most, ended.cells());
                Ok(())
            }
            Err(e) => Err(e),
        }
    }

    // The same, and what was there goes into the journal.
    fn change_noted(
        &mut self,
        n: NodeId,
        field: u32,
        change: Change,
        most: u64,
    ) -> Result<(), AllocError>
        requires hash { IsHash (view self.old.nodes.items) n.0 field }
        requires change { IsChange change }
        requires counted { IsCounted self.old.held (view self.old.nodes.items) self.old.notes.items }
        requires most { most ≡ self.old.held + change_cells change }
        ensures put { OnOk result (IsTabled (view self.old.nodes.items) n.0 field (changed change) (view self.new.nodes.items)) }
        ensures noted { OnOk result (IsTableNoted (view self.old.nodes.items) n.0 field (changed change) self.old.notes.items self.new.notes.items) }
        ensures refused { OnErr result (view self.new.nodes.items ≡ view self.old.nodes.items) }
        ensures unnoted { OnErr result (self.new.notes.items ≡ self.old.notes.items) }
        ensures first { self.new.first ≡ self.old.first }
        ensures open { self.new.is_open ≡ self.old.is_open }
        ensures counted { IsCounted self.new.held (view self.new.nodes.items) self.new.notes.items }
    {
        self.notes.reserve(1)?;
        match self.nodes[n.0 as usize].change(self.alloc, field as usize, change) {
            Ok(part) => {
                self.keep(n, field, part);
                self.held = most;
                Ok(())
            }
            Err(e) => Err(e),
        }
    }

    // Changes a hash field. On a node that was there when the journal was opened, what was there goes into the journal.
    #[tactic(auto, using(crate::proofs::KeepLemmas::stay_self, crate::proofs::TableLemmas::stay_tabled, crate::proofs::TableLemmas::writes_change, crate::proofs::TableLemmas::pairs_typed, crate::proofs::TableLemmas::local_change, crate::proofs::TableLemmas::noted_change))]
    fn change(&mut self, n: NodeId, field: u32, change: Change) -> Result<(), AllocError>
        requires hash { IsHash (view self.old.nodes.items) n.0 field }
        requires change { IsChange change }
        requires counted { IsCounted self.old.held (view self.old.nodes.items) self.old.notes.items }
        ensures written { OnOk result (WritesPairs (view self.old.nodes.items) n.0 field (pairs_changed change) (view self.new.nodes.items)) }
        ensures put { OnOk result (IsTabled (view self.old.nodes.items) n.0 field (changed change) (view self.new.nodes.items)) }
        ensures typed { OnOk result (StayTyped (view self.old.nodes.items) (view self.new.nodes.items)) }
        ensures remembers { OnOk result (self.old.is_open ≡ true → PairsRemember (view self.old.nodes.items) (reverse self.old.notes.items) self.old.first n.0 field (pairs_changed change) (view self.new.nodes.items) (reverse self.new.notes.items)) }
        ensures writable { StayWritable (reverse self.old.notes.items) self.old.first (reverse self.new.notes.items) }
        ensures refused { OnErr result (view self.new.nodes.items ≡ view self.old.nodes.items) }
        ensures unnoted { OnErr result (self.new.notes.items ≡ self.old.notes.items) }
        ensures notes { self.old.is_open ≡ false → self.new.notes.items ≡ self.old.notes.items }
        ensures first { self.new.first ≡ self.old.first }
        ensures open { self.new.is_open ≡ self.old.is_open }
        ensures counted { IsCounted self.new.held (view self.new.nodes.items) self.new.notes.items }
    {
        let most = self.more(change.cells())?;
        if self.is_remembered(n) {
            match self.change_noted(n, field, change, most) {
                Ok(()) => Ok(()),
                Err(e) => Err(e),
            }
        } else {
            match self.change_local(n, field, change, most) {
                Ok(()) => Ok(()),
                Err(e) => Err(e),
            }
        }
    }

    /// Gives a key a value. It is refused for want of memory, or where too many cells would be held to be counted, and changes nothing then.
    /// On a node that was there when the journal was opened, what the key had goes into the journal.
    #[tactic(auto, using(crate::proofs::KeepLemmas::stay_self))]
    pub fn hash_put(
        &mut self,
        n: NodeId,
        field: u32,
        k: Key,
        heap: &Heap,
        key: Word,
        value: Word,
    ) -> Result<(), AllocError>
        requires hash { IsHash (view self.old.nodes.items) n.0 field }
        requires key { Lies heap.now key }
        requires value { Lies heap.now value }
        requires of { k ≡ object_of heap.now key }
        requires counted { IsCounted self.old.held (view self.old.nodes.items) self.old.notes.items }
        ensures written { OnOk result (WritesPairs (view self.old.nodes.items) n.0 field (λ ps. (object_of heap.now key, object_of heap.now value) ∷ ps) (view self.new.nodes.items)) }
        ensures put { OnOk result (IsTabled (view self.old.nodes.items) n.0 field (with_cell (object_of heap.now key) (Some (full (object_of heap.now value)))) (view self.new.nodes.items)) }
        ensures typed { OnOk result (StayTyped (view self.old.nodes.items) (view self.new.nodes.items)) }
        ensures remembers { OnOk result (self.old.is_open ≡ true → PairsRemember (view self.old.nodes.items) (reverse self.old.notes.items) self.old.first n.0 field (λ ps. (object_of heap.now key, object_of heap.now value) ∷ ps) (view self.new.nodes.items) (reverse self.new.notes.items)) }
        ensures writable { StayWritable (reverse self.old.notes.items) self.old.first (reverse self.new.notes.items) }
        ensures refused { OnErr result (view self.new.nodes.items ≡ view self.old.nodes.items) }
        ensures unnoted { OnErr result (self.new.notes.items ≡ self.old.notes.items) }
        ensures notes { self.old.is_open ≡ false → self.new.notes.items ≡ self.old.notes.items }
        ensures first { self.new.first ≡ self.old.first }
        ensures open { self.new.is_open ≡ self.old.is_open }
        ensures counted { IsCounted self.new.held (view self.new.nodes.items) self.new.notes.items }
    {
        let entry = OwnedEntry::make(self.alloc, heap, key, value)?;
        match self.change(n, field, Change::Put(k, entry)) {
            Ok(()) => Ok(()),
            Err(e) => Err(e),
        }
    }

    /// Takes a key and its value away, while the journal is open. What the key had goes into it, unless the node is local.
    #[tactic(auto, using(crate::proofs::KeepLemmas::stay_self))]
    pub fn hash_remove_noted(&mut self, n: NodeId, field: u32, k: &Key) -> Result<(), AllocError>
        requires hash { IsHash (view self.old.nodes.items) n.0 field }
        requires open { self.old.is_open ≡ true }
        requires counted { IsCounted self.old.held (view self.old.nodes.items) self.old.notes.items }
        ensures written { OnOk result (WritesPairs (view self.old.nodes.items) n.0 field (without_key by_number k.now) (view self.new.nodes.items)) }
        ensures put { OnOk result (IsTabled (view self.old.nodes.items) n.0 field (emptied k.now) (view self.new.nodes.items)) }
        ensures typed { OnOk result (StayTyped (view self.old.nodes.items) (view self.new.nodes.items)) }
        ensures remembers { OnOk result (self.old.is_open ≡ true → PairsRemember (view self.old.nodes.items) (reverse self.old.notes.items) self.old.first n.0 field (without_key by_number k.now) (view self.new.nodes.items) (reverse self.new.notes.items)) }
        ensures writable { StayWritable (reverse self.old.notes.items) self.old.first (reverse self.new.notes.items) }
        ensures refused { OnErr result (view self.new.nodes.items ≡ view self.old.nodes.items) }
        ensures unnoted { OnErr result (self.new.notes.items ≡ self.old.notes.items) }
        ensures notes { self.old.is_open ≡ false → self.new.notes.items ≡ self.old.notes.items }
        ensures first { self.new.first ≡ self.old.first }
        ensures open { self.new.is_open ≡ self.old.is_open }
        ensures counted { IsCounted self.new.held (view self.new.nodes.items) self.new.notes.items }
    {
        let key = k.copied(self.alloc)?;
        match self.change(n, field, Change::Empty(key)) {
            Ok(()) => Ok(()),
            Err(e) => Err(e),
        }
    }

    /// Takes all keys and values away, while the journal is open. They go into it, unless the node is local.
    pub fn hash_clear_noted(&mut self, n: NodeId, field: u32) -> Result<(), AllocError>
        requires hash { IsHash (view self.old.nodes.items) n.0 field }
        requires open { self.old.is_open ≡ true }
        requires counted { IsCounted self.old.held (view self.old.nodes.items) self.old.notes.items }
        ensures written { OnOk result (WritesPairs (view self.old.nodes.items) n.0 field (λ ps. []) (view self.new.nodes.items)) }
        ensures put { OnOk result (IsTabled (view self.old.nodes.items) n.0 field (λ cs. []) (view self.new.nodes.items)) }
        ensures typed { OnOk result (StayTyped (view self.old.nodes.items) (view self.new.nodes.items)) }
        ensures remembers { OnOk result (self.old.is_open ≡ true → PairsRemember (view self.old.nodes.items) (reverse self.old.notes.items) self.old.first n.0 field (λ ps. []) (view self.new.nodes.items) (reverse self.new.notes.items)) }
        ensures writable { StayWritable (reverse self.old.notes.items) self.old.first (reverse self.new.notes.items) }
        ensures refused { OnErr result (view self.new.nodes.items ≡ view self.old.nodes.items) }
        ensures unnoted { OnErr result (self.new.notes.items ≡ self.old.notes.items) }
        ensures notes { self.old.is_open ≡ false → self.new.notes.items ≡ self.old.notes.items }
        ensures first { self.new.first ≡ self.old.first }
        ensures open { self.new.is_open ≡ self.old.is_open }
        ensures counted { IsCounted self.new.held (view self.new.nodes.items) self.new.notes.items }
    {
        match self.change(n, field, Change::Clear) {
            Ok(()) => Ok(()),
            Err(e) => Err(e),
        }
    }

    /// Takes a key and its value away, while the journal is closed, or on a local node. It takes no memory.
    #[tactic(auto, using(crate::proofs::TableLemmas::writes_removed, crate::proofs::TableLemmas::pairs_typed, crate::proofs::TableLemmas::local_removed))]
    pub fn hash_remove(&mut self, n: NodeId, field: u32, k: &Key)
        requires hash { IsHash (view self.old.nodes.items) n.0 field }
        requires counted { IsCounted self.old.held (view self.old.nodes.items) self.old.notes.items }
        ensures written { WritesPairs (view self.old.nodes.items) n.0 field (without_key by_number k.now) (view self.new.nodes.items) }
        ensures put { IsTabled (view self.old.nodes.items) n.0 field (with_cell k.now None) (view self.new.nodes.items) }
        ensures typed { StayTyped (view self.old.nodes.items) (view self.new.nodes.items) }
        ensures remembers { self.old.first ≤ n.0 → PairsRemember (view self.old.nodes.items) (reverse self.old.notes.items) self.old.first n.0 field (without_key by_number k.now) (view self.new.nodes.items) (reverse self.new.notes.items) }
        ensures notes { self.new.notes.items ≡ self.old.notes.items }
        ensures first { self.new.first ≡ self.old.first }
        ensures open { self.new.is_open ≡ self.old.is_open }
        ensures counted { IsCounted self.new.held (view self.new.nodes.items) self.new.notes.items }
    {
        let gone = self.nodes[n.0 as usize].remove(field as usize, k);
        self.held = less(self.held, gone);
    }

    /// Takes all keys and values away, while the journal is closed, or on a local node. It takes no memory.
    #[tactic(auto, using(crate::proofs::TableLemmas::writes_cleared, crate::proofs::TableLemmas::pairs_typed, crate::proofs::TableLemmas::local_cleared))]
    pub fn hash_clear(&mut self, n: NodeId, field: u32)
        requires hash { IsHash (view self.old.nodes.items) n.0 field }
        requires counted { IsCounted self.old.held (view self.old.nodes.items) self.old.notes.items }
        ensures written { WritesPairs (view self.old.nodes.items) n.0 field (λ ps. []) (view self.new.nodes.items) }
        ensures put { IsTabled (view self.old.nodes.items) n.0 field (λ cs. []) (view self.new.nodes.items) }
        ensures typed { StayTyped (view self.old.nodes.items) (view self.new.nodes.items) }
        ensures remembers { self.old.first ≤ n.0 → PairsRemember (view self.old.nodes.items) (reverse self.old.notes.items) self.old.first n.0 field (λ ps. []) (view self.new.nodes.items) (reverse self.new.notes.items) }
        ensures notes { self.new.notes.items ≡ self.old.notes.items }
        ensures first { self.new.first ≡ self.old.first }
        ensures open { self.new.is_open ≡ self.old.is_open }
        ensures counted { IsCounted self.new.held (view self.new.nodes.items) self.new.notes.items }
    {
        is_word(self.held);
        let gone = self.cells_at(n, field);
        self.nodes[n.0 as usize].clear(field as usize);
        self.held = less(self.held, gone);
    }
}
