//! Nodes: the fields of one object.
ghost use Rattle.std.specs.Prelude.{◌≡◌, ◌+◌, ◌<◌, ◌^◌, [], slice_get, slice_set, Some, None, IsSome, IsSomeAnd, IfSome, IfOk, OnOk, OnErr};
ghost use Rattle.acl_heap.specs.Objects.{Denotes, Extends};
ghost use Rattle.acl_fields.specs.Fields.{HasLength, IsElement, IsFilled, IsHeld, IsKept, IsSized, element, held, length_of, sized, table_in, with_element, with_held};
ghost use Rattle.acl_fields.specs.Notes.{IsNote, SuitsPart, back};
ghost use Rattle.acl_fields.specs.Held.{change_cells, noted_cells, part_cells};
ghost use Rattle.acl_fields.specs.Parts.{HasChild, child_of, part_of};
ghost use Rattle.acl_maps.specs.Cells.{with_cell};
ghost use Rattle.acl_fields.specs.Changes.{Counts, FindsIn, GivesBack, IsChange, IsKnownTable, Lists, changed, tabled};
ghost use Rattle.acl_fields.specs.Views.{parts_of};

use crate::change::Change;
use crate::notes::OldPart;
use crate::slot::Slot;
use acl_base::{LayoutId, Word};
use acl_hash::Key;
use acl_heap::Heap;
use acl_owned::OwnedObject;
use acl_syms::Symbols;
use std::alloc::{AllocError, Global};

/// The fields of an object, and its layout.
#[derive(Drop)]
pub struct Node {
    pub layout: LayoutId,
    pub slots: Vec<Slot>,
}

impl Node {
    /// The integer in a field.
    pub fn get(&self, field: usize, index: usize) -> i64
        requires { IsSomeAnd (slice_get self.now.slots.items field) (λ s. IsElement (part_of s) index) }
        ensures { IfSome (slice_get self.now.slots.items field) (λ s. result ≡ element (part_of s) index) }
    {
        self.slots[field].get(index)
    }

    /// Another integer in a field.
    pub fn put(&mut self, field: usize, index: usize, value: i64)
        requires is { IsSomeAnd (slice_get self.old.slots.items field) (λ s. IsElement (part_of s) index) }
        requires fits { IsSomeAnd (slice_get self.old.slots.items field) (λ s. IsKept (part_of s) value) }
        ensures layout { self.new.layout ≡ self.old.layout }
        ensures parts { IfSome (slice_get self.old.slots.items field) (λ s. parts_of self.new ≡ slice_set (parts_of self.old) field (with_element (part_of s) index value)) }
    {
        self.slots[field].put(index, value);
    }

    /// Cuts an array, or lengthens it.
    pub fn stretch(
        &mut self,
        alloc: Global,
        heap: &Heap,
        field: usize,
        length: usize,
    ) -> Result<(), AllocError>
        requires { IsSomeAnd (slice_get self.old.slots.items field) (λ s. IsSized (part_of s) × IsFilled heap.now (part_of s)) }
        ensures layout { self.new.layout ≡ self.old.layout }
        ensures parts { OnOk result (IfSome (slice_get self.old.slots.items field) (λ s. parts_of self.new ≡ slice_set (parts_of self.old) field (sized heap.now (part_of s) length))) }
        ensures refused { OnErr result (parts_of self.new ≡ parts_of self.old) }
    {
        match self.slots[field].stretch(alloc, heap, length) {
            Ok(()) => Ok(()),
            Err(e) => Err(e),
        }
    }

    /// Cuts an array, or lengthens it, in memory of its own, and hands the old one out.
    pub fn renew(
        &mut self,
        alloc: Global,
        heap: &Heap,
        field: usize,
        length: usize,
    ) -> Result<Slot, AllocError>
        requires { IsSomeAnd (slice_get self.old.slots.items field) (λ s. IsSized (part_of s) × IsFilled heap.now (part_of s)) }
        ensures layout { self.new.layout ≡ self.old.layout }
        ensures parts { OnOk result (IfSome (slice_get self.old.slots.items field) (λ s. parts_of self.new ≡ slice_set (parts_of self.old) field (sized heap.now (part_of s) length))) }
        ensures old { IfOk result (λ t. IfSome (slice_get self.old.slots.items field) (λ s. part_of t ≡ part_of s)) }
        ensures refused { OnErr result (parts_of self.new ≡ parts_of self.old) }
    {
        match self.slots[field].renew(alloc, heap, length) {
            Ok(slot) => Ok(slot),
            Err(e) => Err(e),
        }
    }

    /// The number of elements or children.
    pub fn length(&self, field: usize) -> u32
        requires { IsSomeAnd (slice_get self.now.slots.items field) (λ s. HasLength (part_of s)) }
        ensures { IfSome (slice_get self.now.slots.items field) (λ s. result ≡ length_of (part_of s)) }
    {
        self.slots[field].length()
    }

    /// The number of a child's node.
    pub fn child(&self, field: usize, index: usize) -> usize
        requires { IsSomeAnd (slice_get self.now.slots.items field) (λ s. HasChild (part_of s) index) }
        ensures { IfSome (slice_get self.now.slots.items field) (λ s. child_of (part_of s) index ≡ Some result) }
    {
        self.slots[field].child(index)
    }

    /// Makes a copy of the object in a field in a heap.
    pub fn copy_out(&self, field: usize, index: usize, heap: &mut Heap) -> Result<Word, AllocError>
        requires { IsSomeAnd (slice_get self.now.slots.items field) (λ s. IsHeld (part_of s) index) }
        ensures grows { Extends heap.old heap.new }
        ensures ok { IfOk result (λ w. IfSome (slice_get self.now.slots.items field) (λ s. Denotes heap.new w (held (part_of s) index))) }
    {
        match self.slots[field].copy_out(index, heap) {
            Ok(w) => Ok(w),
            Err(e) => Err(e),
        }
    }

    /// Another object in a field, and a note of the one that was there.
    pub fn exchange(&mut self, field: usize, index: usize, o: OwnedObject) -> OldPart
        requires { IsSomeAnd (slice_get self.old.slots.items field) (λ s. IsHeld (part_of s) index) }
        ensures layout { self.new.layout ≡ self.old.layout }
        ensures parts { IfSome (slice_get self.old.slots.items field) (λ s. parts_of self.new ≡ slice_set (parts_of self.old) field (with_held (part_of s) index o)) }
        ensures noted { IfSome (slice_get self.old.slots.items field) (λ s. IsNote result (part_of s) index) }
    {
        self.slots[field].exchange(index, o)
    }

    /// A note of the integer in a field.
    pub fn noted(&self, field: usize, index: usize) -> OldPart
        requires { IsSomeAnd (slice_get self.now.slots.items field) (λ s. IsElement (part_of s) index) }
        ensures { IfSome (slice_get self.now.slots.items field) (λ s. IsNote result (part_of s) index) }
    {
        self.slots[field].noted(index)
    }

    /// A copy of the value of a key in a heap, if it has one.
    pub fn find(&self, field: usize, k: &Key, heap: &mut Heap) -> Result<Option<Word>, AllocError>
        requires { IsSomeAnd (slice_get self.now.slots.items field) (λ s. IsSome (table_in (part_of s))) }
        ensures grows { Extends heap.old heap.new }
        ensures ok { IfOk result (λ r. IfSome (slice_get self.now.slots.items field) (λ s. FindsIn (part_of s) k.now heap.new r)) }
    {
        match self.slots[field].find(k, heap) {
            Ok(found) => Ok(found),
            Err(e) => Err(e),
        }
    }

    /// Copies of the pairs of a hash field in a heap, in the total order of keys.
    pub fn pairs(
        &self,
        alloc: Global,
        field: usize,
        heap: &mut Heap,
        syms: &Symbols,
    ) -> Result<Vec<(Word, Word)>, AllocError>
        requires { IsSomeAnd (slice_get self.now.slots.items field) (λ s. IsKnownTable syms.now.symbols (part_of s)) }
        ensures grows { Extends heap.old heap.new }
        ensures ok { IfOk result (λ ws. IfSome (slice_get self.now.slots.items field) (λ s. Lists syms.now.symbols (part_of s) heap.new ws.items)) }
        ensures refused { OnErr result (heap.new ≡ heap.old) }
    {
        match self.slots[field].pairs(alloc, heap, syms) {
            Ok(pairs) => Ok(pairs),
            Err(e) => Err(e),
        }
    }

    /// How many keys of a hash field have a value.
    pub fn count(&self, field: usize) -> u64
        requires { IsSomeAnd (slice_get self.now.slots.items field) (λ s. IsSome (table_in (part_of s))) }
        ensures { IfSome (slice_get self.now.slots.items field) (λ s. Counts (part_of s) result) }
    {
        self.slots[field].count()
    }

    /// Changes a hash field, with a note of what was there.
    pub fn change(
        &mut self,
        alloc: Global,
        field: usize,
        change: Change,
    ) -> Result<OldPart, AllocError>
        requires table { IsSomeAnd (slice_get self.old.slots.items field) (λ s. IsSome (table_in (part_of s))) }
        requires change { IsChange change }
        ensures layout { self.new.layout ≡ self.old.layout }
        ensures parts { OnOk result (IfSome (slice_get self.old.slots.items field) (λ s. parts_of self.new ≡ slice_set (parts_of self.old) field (tabled (changed change) (part_of s)))) }
        ensures noted { IfOk result (λ q. IfSome (slice_get self.old.slots.items field) (λ s. GivesBack q (tabled (changed change) (part_of s)) (part_of s))) }
        ensures counted { IfOk result (λ q. IfSome (slice_get self.old.slots.items field) (λ s. part_cells (tabled (changed change) (part_of s)) + noted_cells q ≡ part_cells (part_of s) + change_cells change)) }
        ensures refused { OnErr result (parts_of self.new ≡ parts_of self.old) }
    {
        match self.slots[field].change(alloc, change) {
            Ok(part) => Ok(part),
            Err(e) => Err(e),
        }
    }

    /// Takes a key of a hash field and its value away, and tells how many cells they took.
    pub fn remove(&mut self, field: usize, k: &Key) -> u64
        requires { IsSomeAnd (slice_get self.old.slots.items field) (λ s. IsSome (table_in (part_of s))) }
        ensures layout { self.new.layout ≡ self.old.layout }
        ensures parts { IfSome (slice_get self.old.slots.items field) (λ s. parts_of self.new ≡ slice_set (parts_of self.old) field (tabled (with_cell k.now None) (part_of s))) }
        ensures gone { IfSome (slice_get self.old.slots.items field) (λ s. part_cells (tabled (with_cell k.now None) (part_of s)) + result ≡ part_cells (part_of s)) }
    {
        self.slots[field].remove(k)
    }

    /// Takes all keys and values of a hash field away.
    pub fn clear(&mut self, field: usize)
        requires { IsSomeAnd (slice_get self.old.slots.items field) (λ s. IsSome (table_in (part_of s))) }
        ensures layout { self.new.layout ≡ self.old.layout }
        ensures parts { IfSome (slice_get self.old.slots.items field) (λ s. parts_of self.new ≡ slice_set (parts_of self.old) field (tabled (λ cs. []) (part_of s))) }
    {
        self.slots[field].clear();
    }

    /// Puts a note back, and tells how many cells what it takes the place of takes, which ends.
    pub fn back(&mut self, field: usize, part: OldPart) -> u64
        requires suits { IsSomeAnd (slice_get self.old.slots.items field) (λ s. SuitsPart part (part_of s)) }
        requires few { IsSomeAnd (slice_get self.old.slots.items field) (λ s. part_cells (part_of s) < 2 ^ 64) }
        ensures layout { self.new.layout ≡ self.old.layout }
        ensures parts { IfSome (slice_get self.old.slots.items field) (λ s. parts_of self.new ≡ slice_set (parts_of self.old) field (back part (part_of s))) }
        ensures gone { IfSome (slice_get self.old.slots.items field) (λ s. part_cells (back part (part_of s)) + result ≡ part_cells (part_of s) + noted_cells part) }
    {
        self.slots[field].back(part)
    }
}
