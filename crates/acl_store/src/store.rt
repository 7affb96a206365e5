//! `Store`.
ghost use Rattle.std.specs.Prelude.{◌≡◌, ◌+◌, ◌-◌, ◌≤◌, [], ◌∷◌, ◌++◌, ◌<◌, ◌^◌, drop, length, reverse, take, true, false, IfOk, IfSome, IsSomeAnd, OnOk, OnErr, vec_len, vec_capacity};
ghost use Rattle.acl_heap.specs.Objects.{object_of, Lies};
ghost use Rattle.acl_heap.specs.Objects as objects;
ghost use Rattle.acl_nodes.specs.Making.{Extends};
ghost use Rattle.acl_nodes.specs.Nodes.{part_at};
ghost use Rattle.acl_store.specs.Calls.{Creates, Cuts, Holds, IsArray, IsGeneral, IsInline, IsMany, IsObjectPut, IsParent, IsPut, IsSizedTo, IsTyped, IsWord, Lends, Measures, Reads, ReadsObject, Resizes, StayTyped, StayTypedIf, Writes, WritesObject};
ghost use Rattle.model_objects.specs.Object.{cells};
ghost use Rattle.acl_fields.specs.Fields.{number_of, sized};
ghost use Rattle.acl_fields.specs.Held.{nodes_cells, noted_cells, part_cells};
ghost use Rattle.acl_fields.specs.Notes.{IsNote};
ghost use Rattle.acl_store.specs.Counts.{IsCounted, cells_in, notes_cells};
ghost use Rattle.acl_store.specs.Journals.{Begins, CreateRemembers, CutRemembers, Fit, IsNoted, IsNotedAt, MayBeWritten, NoteRemembers, ObjectRemembers, ResizeRemembers, Restores, StayShaped, StayWritable, StepsBack, WriteRemembers};
ghost use Rattle.acl_fields.specs.Layouts.{AreLayouts};
ghost use Rattle.acl_making.specs.Making.{NodeFor};
ghost use Rattle.acl_fields.specs.Parts.{path_in};
ghost use Rattle.acl_fields.specs.Views.{view};

use crate::counting::{count_nodes, count_notes};
use crate::notes::Old;
use acl_base::{Layout, LayoutId, NodeId, Word};
use acl_fields::{Node, OldPart, number};
use acl_heap::Heap;
use acl_making::make;
use acl_owned::OwnedObject;
use std::alloc::{AllocError, Global};

/// Live objects by the numbers of their nodes. Each node has one owner, and a child's number is below its parent's.
///
/// Clauses see a store as its nodes, and say of any lists of roots and places that these hold which lists and places they hold afterwards.
#[derive(Drop)]
pub struct Store {
    pub(crate) alloc: Global,
    pub(crate) nodes: Vec<Node>,
    pub(crate) notes: Vec<Old>,
    first: usize,
    is_open: bool,
    pub(crate) held: u64,
}

impl Store {
    /// An empty store. It takes no memory.
    pub fn new(alloc: Global) -> Store
        ensures empty { view result.nodes.items ≡ [] }
        ensures holds { Holds (view result.nodes.items) (record { roots = []; places = [] }) }
        ensures closed { result.is_open ≡ false }
        ensures notes { result.notes.items ≡ [] }
        ensures counted { IsCounted result.held (view result.nodes.items) result.notes.items }
    {
        let nodes = Vec::new(alloc);
        let notes = Vec::new(alloc);
        Store {
            alloc,
            nodes,
            notes,
            first: 0,
            is_open: false,
            held: 0,
        }
    }

    /// A new object of the layout, whose children are new too. It is refused for want of memory, or where too many cells would be held to be counted, and then no node is left of it.
    /// It takes time in the sum of the lengths of its arrays.
    pub fn create(
        &mut self,
        layouts: &[Layout],
        id: LayoutId,
        heap: &Heap,
    ) -> Result<NodeId, AllocError>
        requires layouts { AreLayouts heap.now layouts.now }
        requires id { id.0 < length layouts.now }
        requires counted { IsCounted self.old.held (view self.old.nodes.items) self.old.notes.items }
        ensures created { IfOk result (λ n. Creates heap.now layouts.now id.0 (view self.old.nodes.items) (view self.new.nodes.items) n.0) }
        ensures typed { IfOk result (λ n. IsTyped layouts.now id.0 (view self.old.nodes.items) (view self.new.nodes.items) n.0) }
        ensures behind { IfOk result (λ n. Extends (view self.old.nodes.items) (view self.new.nodes.items)) }
        ensures remembers { IfOk result (λ n. CreateRemembers heap.now layouts.now id.0 (view self.old.nodes.items) (reverse self.old.notes.items) self.old.first (view self.new.nodes.items) n.0) }
        ensures refused { OnErr result (view self.new.nodes.items ≡ view self.old.nodes.items) }
        ensures notes { self.new.notes.items ≡ self.old.notes.items }
        ensures first { self.new.first ≡ self.old.first }
        ensures open { self.new.is_open ≡ self.old.is_open }
        ensures counted { IsCounted self.new.held (view self.new.nodes.items) self.new.notes.items }
    {
        let before = self.nodes.len();
        match self.push_object(layouts, id.0 as usize, heap) {
            Ok(n) => Ok(NodeId(n as u64)),
            Err(e) => {
                self.nodes.truncate(before);
                Err(e)
            }
        }
    }

    // Pushes the nodes of a new object, and counts their cells. What is refused has pushed some.
    fn push_object(
        &mut self,
        layouts: &[Layout],
        id: usize,
        heap: &Heap,
    ) -> Result<usize, AllocError>
        requires layouts { AreLayouts heap.now layouts.now }
        requires id { id < length layouts.now }
        requires counted { IsCounted self.old.held (view self.old.nodes.items) self.old.notes.items }
        ensures made { IfOk result (λ c. NodeFor heap.now layouts.now id (view self.old.nodes.items) (view self.new.nodes.items) c) }
        ensures kept { Extends (view self.old.nodes.items) (view self.new.nodes.items) }
        ensures counted { OnOk result (IsCounted self.new.held (view self.new.nodes.items) self.new.notes.items) }
        ensures refused { OnErr result (self.new.held ≡ self.old.held) }
        ensures notes { self.new.notes.items ≡ self.old.notes.items }
        ensures first { self.new.first ≡ self.old.first }
        ensures open { self.new.is_open ≡ self.old.is_open }
    {
        let before = self.nodes.len();
        let c = make(&mut self.nodes, self.alloc, heap, layouts, id)?;
        match count_nodes(&self.nodes[before..], self.held) {
            Some(held) => {
                self.held = held;
                Ok(c)
            }
            None => Err(AllocError),
        }
    }

    /// How many cells the objects in fields and in the journal take. It takes no time.
    pub fn held(&self) -> u64
        requires { IsCounted self.now.held (view self.now.nodes.items) self.now.notes.items }
        ensures { result ≡ cells_in (view self.now.nodes.items) self.now.notes.items }
    {
        self.held
    }

    // So many cells more than are held.
    pub(crate) fn more(&self, count: u64) -> Result<u64, AllocError>
        ensures { IfOk result (λ m. m ≡ self.now.held + count) }
    {
        match self.held.checked_add(count) {
            Some(held) => Ok(held),
            None => Err(AllocError),
        }
    }

    // How many cells a field holds.
    pub(crate) fn cells_at(&self, n: NodeId, field: u32) -> u64
        requires { IsSomeAnd (part_at (view self.now.nodes.items) n.0 field) (λ p. part_cells p < 2 ^ 64) }
        ensures { IfSome (part_at (view self.now.nodes.items) n.0 field) (λ p. result ≡ part_cells p) }
    {
        self.nodes[n.0 as usize].cells(field as usize)
    }

    /// The integer in a field: its own, or an element of its array.
    pub fn read_inline(&self, n: NodeId, field: u32, index: u32) -> Word
        requires { IsInline (view self.now.nodes.items) n.0 field index }
        ensures { Reads (view self.now.nodes.items) n.0 field index result }
    {
        Word::Small(self.nodes[n.0 as usize].get(field as usize, index as usize))
    }

    /// Another integer in a field. It takes no memory, and is never refused.
    pub fn set_inline(&mut self, n: NodeId, field: u32, index: u32, w: Word)
        requires inline { IsInline (view self.old.nodes.items) n.0 field index }
        requires word { IsWord (view self.old.nodes.items) n.0 field w }
        requires counted { IsCounted self.old.held (view self.old.nodes.items) self.old.notes.items }
        ensures written { Writes (view self.old.nodes.items) n.0 field index (number_of w) (view self.new.nodes.items) }
        ensures remembers { WriteRemembers (view self.old.nodes.items) (reverse self.old.notes.items) self.old.first n.0 field index (number_of w) (view self.new.nodes.items) }
        ensures put { IsPut (view self.old.nodes.items) n.0 field index (number_of w) (view self.new.nodes.items) }
        ensures typed { StayTyped (view self.old.nodes.items) (view self.new.nodes.items) }
        ensures notes { self.new.notes.items ≡ self.old.notes.items }
        ensures first { self.new.first ≡ self.old.first }
        ensures open { self.new.is_open ≡ self.old.is_open }
        ensures counted { IsCounted self.new.held (view self.new.nodes.items) self.new.notes.items }
    {
        self.nodes[n.0 as usize].put(field as usize, index as usize, number(w));
    }

    /// Makes a copy of the object in a field in the heap. What is refused leaves the heap as it was.
    pub fn read_general(
        &self,
        n: NodeId,
        field: u32,
        index: u32,
        heap: &mut Heap,
    ) -> Result<Word, AllocError>
        requires { IsGeneral (view self.now.nodes.items) n.0 field index }
        ensures grows { objects.Extends heap.old heap.new }
        ensures ok { IfOk result (λ w. ReadsObject (view self.now.nodes.items) n.0 field index heap.new w) }
        ensures refused { OnErr result (heap.new ≡ heap.old) }
    {
        let mark = heap.mark();
        match self.nodes[n.0 as usize].copy_out(field as usize, index as usize, heap) {
            Ok(w) => Ok(w),
            Err(e) => {
                heap.reset(mark);
                Err(e)
            }
        }
    }

    /// Another object in a field. It is refused for want of memory, or where too many cells would be held to be counted, and changes nothing then.
    /// On a node that was there when the journal was opened, the object that was in the field goes into the journal.
    #[tactic(auto, using(crate::proofs::KeepLemmas::stay_self, crate::proofs::ObjectLemmas::stay_noted_at, crate::proofs::ObjectLemmas::writes_object, crate::proofs::ObjectLemmas::object_typed, crate::proofs::ObjectLemmas::object_local, crate::proofs::ObjectLemmas::object_noted))]
    pub fn set_general(
        &mut self,
        n: NodeId,
        field: u32,
        index: u32,
        heap: &Heap,
        w: Word,
    ) -> Result<(), AllocError>
        requires general { IsGeneral (view self.old.nodes.items) n.0 field index }
        requires word { Lies heap.now w }
        requires counted { IsCounted self.old.held (view self.old.nodes.items) self.old.notes.items }
        ensures written { OnOk result (WritesObject (view self.old.nodes.items) n.0 field index (object_of heap.now w) (view self.new.nodes.items)) }
        ensures put { OnOk result (IsObjectPut (view self.old.nodes.items) n.0 field index (object_of heap.now w) (view self.new.nodes.items)) }
        ensures typed { OnOk result (StayTyped (view self.old.nodes.items) (view self.new.nodes.items)) }
        ensures remembers { OnOk result (self.old.is_open ≡ true → ObjectRemembers (view self.old.nodes.items) (reverse self.old.notes.items) self.old.first n.0 field index (object_of heap.now w) (view self.new.nodes.items) (reverse self.new.notes.items)) }
        ensures writable { StayWritable (reverse self.old.notes.items) self.old.first (reverse self.new.notes.items) }
        ensures refused { OnErr result (view self.new.nodes.items ≡ view self.old.nodes.items) }
        ensures unnoted { OnErr result (self.new.notes.items ≡ self.old.notes.items) }
        ensures notes { self.old.is_open ≡ false → self.new.notes.items ≡ self.old.notes.items }
        ensures first { self.new.first ≡ self.old.first }
        ensures open { self.new.is_open ≡ self.old.is_open }
        ensures counted { IsCounted self.new.held (view self.new.nodes.items) self.new.notes.items }
    {
        let o = OwnedObject::put(self.alloc, heap, w)?;
        let most = self.more(o.cells())?;
        if self.is_remembered(n) {
            match self.set_noted(n, field, index, o, most) {
                Ok(()) => Ok(()),
                Err(e) => Err(e),
            }
        } else {
            self.set_local(n, field, index, o, most);
            Ok(())
        }
    }

    // Another object in a field. With it there would be so many cells.
    fn set_local(&mut self, n: NodeId, field: u32, index: u32, o: OwnedObject, most: u64)
        requires general { IsGeneral (view self.old.nodes.items) n.0 field index }
        requires counted { IsCounted self.old.held (view self.old.nodes.items) self.old.notes.items }
        requires most { most ≡ self.old.held + cells o }
        ensures put { IsObjectPut (view self.old.nodes.items) n.0 field index o (view self.new.nodes.items) }
        ensures notes { self.new.notes.items ≡ self.old.notes.items }
        ensures first { self.new.first ≡ self.old.first }
        ensures open { self.new.is_open ≡ self.old.is_open }
        ensures counted { IsCounted self.new.held (view self.new.nodes.items) self.new.notes.items }
    {
        let ended = self.nodes[n.0 as usize].exchange(field as usize, index as usize, o);
        self.held = less(most, ended.cells());
    }

    // The same, and the object that was there goes into the journal.
    fn set_noted(
        &mut self,
        n: NodeId,
        field: u32,
        index: u32,
        o: OwnedObject,
        most: u64,
    ) -> Result<(), AllocError>
        requires general { IsGeneral (view self.old.nodes.items) n.0 field index }
        requires counted { IsCounted self.old.held (view self.old.nodes.items) self.old.notes.items }
        requires most { most ≡ self.old.held + cells o }
        ensures put { OnOk result (IsObjectPut (view self.old.nodes.items) n.0 field index o (view self.new.nodes.items)) }
        ensures noted { OnOk result (IsNotedAt (view self.old.nodes.items) n.0 field index self.old.notes.items self.new.notes.items) }
        ensures refused { OnErr result (view self.new.nodes.items ≡ view self.old.nodes.items) }
        ensures unnoted { OnErr result (self.new.notes.items ≡ self.old.notes.items) }
        ensures first { self.new.first ≡ self.old.first }
        ensures open { self.new.is_open ≡ self.old.is_open }
        ensures counted { IsCounted self.new.held (view self.new.nodes.items) self.new.notes.items }
    {
        match self.notes.reserve(1) {
            Ok(()) => {
                self.swap_noted(n, field, index, o, most);
                Ok(())
            }
            Err(e) => Err(e),
        }
    }

    // The same, where there is room for the note.
    fn swap_noted(&mut self, n: NodeId, field: u32, index: u32, o: OwnedObject, most: u64)
        requires general { IsGeneral (view self.old.nodes.items) n.0 field index }
        requires room { vec_len self.old.notes < vec_capacity self.old.notes }
        requires counted { IsCounted self.old.held (view self.old.nodes.items) self.old.notes.items }
        requires most { most ≡ self.old.held + cells o }
        ensures put { IsObjectPut (view self.old.nodes.items) n.0 field index o (view self.new.nodes.items) }
        ensures noted { IsNotedAt (view self.old.nodes.items) n.0 field index self.old.notes.items self.new.notes.items }
        ensures first { self.new.first ≡ self.old.first }
        ensures open { self.new.is_open ≡ self.old.is_open }
        ensures counted { IsCounted self.new.held (view self.new.nodes.items) self.new.notes.items }
    {
        let node = &mut self.nodes[n.0 as usize];
        let old = node.exchange(field as usize, index as usize, o);
        self.keep(n, field, old);
        self.held = most;
    }

    /// The number of elements or children.
    pub fn length(&self, n: NodeId, field: u32) -> u32
        requires { IsMany (view self.now.nodes.items) n.0 field }
        ensures { Measures (view self.now.nodes.items) n.0 field result }
    {
        self.nodes[n.0 as usize].length(field as usize)
    }

    /// The node of a child.
    pub fn child(&self, n: NodeId, field: u32, index: u32) -> NodeId
        requires { IsParent (view self.now.nodes.items) n.0 field index }
        ensures { Lends (view self.now.nodes.items) n.0 field index result.0 }
    {
        NodeId(self.nodes[n.0 as usize].child(field as usize, index as usize) as u64)
    }

    /// Cuts an array, or lengthens it with what its elements began as. It is refused for want of memory, or where too many cells would be held to be counted, and changes nothing then.
    /// An array that was there when the journal was opened goes into the journal, and a copy takes its place.
    #[tactic(auto, using(crate::proofs::KeepLemmas::stay_self, crate::proofs::KeepLemmas::stay_noted, crate::proofs::KeepLemmas::sizes_local, crate::proofs::KeepLemmas::sizes_noted, crate::proofs::StoreLemmas::resizes, crate::proofs::StoreLemmas::size_typed))]
    pub fn resize(&mut self, n: NodeId, field: u32, len: u32, heap: &Heap) -> Result<(), AllocError>
        requires array { IsArray heap.now (view self.old.nodes.items) n.0 field }
        requires counted { IsCounted self.old.held (view self.old.nodes.items) self.old.notes.items }
        ensures elements { OnOk result (Resizes heap.now (view self.old.nodes.items) n.0 field len (view self.new.nodes.items)) }
        ensures sized { OnOk result (IsSizedTo heap.now (view self.old.nodes.items) n.0 field len (view self.new.nodes.items)) }
        ensures typed { OnOk result (StayTypedIf n.0 field (view self.old.nodes.items) (view self.new.nodes.items)) }
        ensures remembers { OnOk result (self.old.is_open ≡ true → ResizeRemembers heap.now (view self.old.nodes.items) (reverse self.old.notes.items) self.old.first n.0 field len (view self.new.nodes.items) (reverse self.new.notes.items)) }
        ensures writable { StayWritable (reverse self.old.notes.items) self.old.first (reverse self.new.notes.items) }
        ensures refused { OnErr result (view self.new.nodes.items ≡ view self.old.nodes.items) }
        ensures unnoted { OnErr result (self.new.notes.items ≡ self.old.notes.items) }
        ensures notes { self.old.is_open ≡ false → self.new.notes.items ≡ self.old.notes.items }
        ensures first { self.new.first ≡ self.old.first }
        ensures open { self.new.is_open ≡ self.old.is_open }
        ensures counted { IsCounted self.new.held (view self.new.nodes.items) self.new.notes.items }
    {
        let most = self.held_sized(n, field, len, heap)?;
        if self.is_remembered(n) {
            match self.resize_noted(n, field, len, heap, most) {
                Ok(()) => Ok(()),
                Err(e) => Err(e),
            }
        } else {
            match self.resize_local(n, field, len, heap, most) {
                Ok(()) => Ok(()),
                Err(e) => Err(e),
            }
        }
    }

    // How many cells there would be if an array were cut or lengthened, and the old one kept.
    fn held_sized(&self, n: NodeId, field: u32, len: u32, heap: &Heap) -> Result<u64, AllocError>
        requires { IsArray heap.now (view self.now.nodes.items) n.0 field }
        ensures { IfOk result (λ m. IfSome (part_at (view self.now.nodes.items) n.0 field) (λ p. m ≡ self.now.held + part_cells (sized heap.now p len))) }
    {
        match self.nodes[n.0 as usize].counted_sized(
            heap,
            field as usize,
            len as usize,
            self.held,
        ) {
            Some(held) => Ok(held),
            None => Err(AllocError),
        }
    }

    // Whether the journal is open, and the node is older than that.
    pub(crate) fn is_remembered(&self, n: NodeId) -> bool
        ensures open { result ≡ true → self.now.is_open ≡ true }
        ensures older { result ≡ true → n.0 < self.now.first }
        ensures local { result ≡ false → self.now.is_open ≡ true → self.now.first ≤ n.0 }
    {
        if self.is_open {
            return (n.0 as usize) < self.first;
        }
        false
    }

    // Cuts an array, or lengthens it.
    fn resize_local(
        &mut self,
        n: NodeId,
        field: u32,
        len: u32,
        heap: &Heap,
        most: u64,
    ) -> Result<(), AllocError>
        requires array { IsArray heap.now (view self.old.nodes.items) n.0 field }
        requires counted { IsCounted self.old.held (view self.old.nodes.items) self.old.notes.items }
        requires most { IfSome (part_at (view self.old.nodes.items) n.0 field) (λ p. most ≡ self.old.held + part_cells (sized heap.now p len)) }
        ensures sized { OnOk result (IsSizedTo heap.now (view self.old.nodes.items) n.0 field len (view self.new.nodes.items)) }
        ensures refused { OnErr result (view self.new.nodes.items ≡ view self.old.nodes.items) }
        ensures notes { self.new.notes.items ≡ self.old.notes.items }
        ensures first { self.new.first ≡ self.old.first }
        ensures open { self.new.is_open ≡ self.old.is_open }
        ensures counted { IsCounted self.new.held (view self.new.nodes.items) self.new.notes.items }
    {
        let ended = self.cells_at(n, field);
        match self.nodes[n.0 as usize].stretch(self.alloc, heap, field as usize, len as usize) {
            Ok(()) => {
                self.held = less(most, ended);
                Ok(())
            }
            Err(e) => Err(e),
        }
    }

    // The same, and the old array goes into the journal.
    fn resize_noted(
        &mut self,
        n: NodeId,
        field: u32,
        len: u32,
        heap: &Heap,
        most: u64,
    ) -> Result<(), AllocError>
        requires array { IsArray heap.now (view self.old.nodes.items) n.0 field }
        requires counted { IsCounted self.old.held (view self.old.nodes.items) self.old.notes.items }
        requires most { IfSome (part_at (view self.old.nodes.items) n.0 field) (λ p. most ≡ self.old.held + part_cells (sized heap.now p len)) }
        ensures sized { OnOk result (IsSizedTo heap.now (view self.old.nodes.items) n.0 field len (view self.new.nodes.items)) }
        ensures noted { OnOk result (IsNoted (view self.old.nodes.items) n.0 field self.old.notes.items self.new.notes.items) }
        ensures refused { OnErr result (view self.new.nodes.items ≡ view self.old.nodes.items) }
        ensures unnoted { OnErr result (self.new.notes.items ≡ self.old.notes.items) }
        ensures first { self.new.first ≡ self.old.first }
        ensures open { self.new.is_open ≡ self.old.is_open }
        ensures counted { IsCounted self.new.held (view self.new.nodes.items) self.new.notes.items }
    {
        self.notes.reserve(1)?;
        match self.nodes[n.0 as usize].renew(self.alloc, heap, field as usize, len as usize) {
            Ok(slot) => {
                self.keep(n, field, OldPart::Whole(slot));
                self.held = most;
                Ok(())
            }
            Err(e) => Err(e),
        }
    }

    // Puts a note behind the others, for which there is room.
    pub(crate) fn keep(&mut self, n: NodeId, field: u32, part: OldPart)
        requires { vec_len self.old.notes < vec_capacity self.old.notes }
        ensures noted { self.new.notes.items ≡ self.old.notes.items ++ record { node = n.0; field = field; part = part } ∷ [] }
        ensures nodes { self.new.nodes.items ≡ self.old.nodes.items }
        ensures first { self.new.first ≡ self.old.first }
        ensures open { self.new.is_open ≡ self.old.is_open }
        ensures held { self.new.held ≡ self.old.held }
    {
        let old = Old {
            node: n.0 as usize,
            field: field as usize,
            part,
        };
        match self.notes.push(old) {
            Ok(()) => {}
            Err(_) => unreachable!(),
        }
    }

    /// The number of the next node.
    pub fn mark(&self) -> NodeId
        ensures { result.0 ≡ length (view self.now.nodes.items) }
    {
        NodeId(self.nodes.len() as u64)
    }

    /// Ends every node from `m` on. It takes no memory.
    pub fn cut_to(&mut self, m: NodeId)
        requires below { m.0 ≤ length (view self.old.nodes.items) }
        requires counted { IsCounted self.old.held (view self.old.nodes.items) self.old.notes.items }
        ensures nodes { view self.new.nodes.items ≡ take m.0 (view self.old.nodes.items) }
        ensures cut { Cuts (view self.old.nodes.items) m.0 (view self.new.nodes.items) }
        ensures remembers { CutRemembers (view self.old.nodes.items) (reverse self.old.notes.items) self.old.first m.0 (view self.new.nodes.items) }
        ensures typed { StayTyped (view self.old.nodes.items) (view self.new.nodes.items) }
        ensures notes { self.new.notes.items ≡ self.old.notes.items }
        ensures first { self.new.first ≡ self.old.first }
        ensures open { self.new.is_open ≡ self.old.is_open }
        ensures counted { IsCounted self.new.held (view self.new.nodes.items) self.new.notes.items }
    {
        let gone = self.cells_from(m);
        self.held = less(self.held, gone);
        self.nodes.truncate(m.0 as usize);
    }

    /// Opens the journal, and keeps the next node number. It takes no memory.
    #[tactic(auto, using(crate::proofs::JournalLemmas::begun))]
    pub fn begin(&mut self)
        requires closed { self.old.is_open ≡ false }
        requires counted { IsCounted self.old.held (view self.old.nodes.items) self.old.notes.items }
        ensures open { self.new.is_open ≡ true }
        ensures nodes { self.new.nodes.items ≡ self.old.nodes.items }
        ensures first { self.new.first ≡ length (view self.new.nodes.items) }
        ensures begins { Begins (view self.new.nodes.items) (reverse self.new.notes.items) self.new.first }
        ensures notes { self.new.notes.items ≡ [] }
        ensures counted { IsCounted self.new.held (view self.new.nodes.items) self.new.notes.items }
    {
        self.forget_notes();
        self.first = self.nodes.len();
        self.is_open = true;
    }

    // A note of the integer in a field.
    fn old_inline(&self, n: NodeId, field: u32, index: u32) -> Old
        requires { IsInline (view self.now.nodes.items) n.0 field index }
        ensures node { result.node ≡ n.0 }
        ensures field { result.field ≡ field }
        ensures note { IfSome (part_at (view self.now.nodes.items) n.0 field) (λ p. IsNote result.part p index) }
        ensures none { noted_cells result.part ≡ 0 }
    {
        Old {
            node: n.0 as usize,
            field: field as usize,
            part: self.nodes[n.0 as usize].noted(field as usize, index as usize),
        }
    }

    /// Notes the integer in a field, so that it may be written. On a node that was made since the journal was opened it notes nothing.
    #[tactic(auto, using(crate::proofs::JournalLemmas::notes_self, crate::proofs::JournalLemmas::notes_keep, crate::proofs::JournalLemmas::local_may, crate::proofs::KeepLemmas::stay_self, crate::proofs::KeepLemmas::stay_pushed))]
    pub fn note_inline(&mut self, n: NodeId, field: u32, index: u32) -> Result<(), AllocError>
        requires open { self.old.is_open ≡ true }
        requires inline { IsInline (view self.old.nodes.items) n.0 field index }
        requires counted { IsCounted self.old.held (view self.old.nodes.items) self.old.notes.items }
        ensures open { self.new.is_open ≡ true }
        ensures nodes { self.new.nodes.items ≡ self.old.nodes.items }
        ensures first { self.new.first ≡ self.old.first }
        ensures noted { OnOk result (IfSome (part_at (view self.old.nodes.items) n.0 field) (λ p. MayBeWritten (reverse self.new.notes.items) self.new.first n.0 (path_in p field index))) }
        ensures remembers { NoteRemembers (view self.old.nodes.items) (reverse self.old.notes.items) self.old.first (reverse self.new.notes.items) }
        ensures writable { StayWritable (reverse self.old.notes.items) self.old.first (reverse self.new.notes.items) }
        ensures refused { OnErr result (self.new.notes.items ≡ self.old.notes.items) }
        ensures counted { IsCounted self.new.held (view self.new.nodes.items) self.new.notes.items }
    {
        if n.0 as usize >= self.first {
            return Ok(());
        }
        let old = self.old_inline(n, field, index);
        self.note(old)?;
        Ok(())
    }

    // Puts a note of an integer behind the others.
    fn note(&mut self, old: Old) -> Result<(), AllocError>
        requires none { noted_cells old.part ≡ 0 }
        requires counted { IsCounted self.old.held (view self.old.nodes.items) self.old.notes.items }
        ensures noted { OnOk result (self.new.notes.items ≡ self.old.notes.items ++ old ∷ []) }
        ensures refused { OnErr result (self.new.notes.items ≡ self.old.notes.items) }
        ensures nodes { self.new.nodes.items ≡ self.old.nodes.items }
        ensures first { self.new.first ≡ self.old.first }
        ensures open { self.new.is_open ≡ self.old.is_open }
        ensures counted { IsCounted self.new.held (view self.new.nodes.items) self.new.notes.items }
    {
        match self.notes.push(old) {
            Ok(()) => Ok(()),
            Err(_refused) => Err(AllocError),
        }
    }

    // How many cells the nodes from one on hold.
    fn cells_from(&self, m: NodeId) -> u64
        requires below { m.0 ≤ length (view self.now.nodes.items) }
        requires counted { IsCounted self.now.held (view self.now.nodes.items) self.now.notes.items }
        ensures { result ≡ nodes_cells (view (drop m.0 self.now.nodes.items)) }
    {
        is_word(self.held);
        match count_nodes(&self.nodes[m.0 as usize..], 0) {
            Some(gone) => gone,
            None => unreachable!(),
        }
    }

    // How many cells the notes hold.
    fn cells_noted(&self) -> u64
        requires { IsCounted self.now.held (view self.now.nodes.items) self.now.notes.items }
        ensures { result ≡ notes_cells self.now.notes.items }
    {
        is_word(self.held);
        match count_notes(&self.notes, 0) {
            Some(gone) => gone,
            None => unreachable!(),
        }
    }

    // Ends all notes.
    fn forget_notes(&mut self)
        requires counted { IsCounted self.old.held (view self.old.nodes.items) self.old.notes.items }
        ensures notes { self.new.notes.items ≡ [] }
        ensures nodes { self.new.nodes.items ≡ self.old.nodes.items }
        ensures first { self.new.first ≡ self.old.first }
        ensures open { self.new.is_open ≡ self.old.is_open }
        ensures counted { IsCounted self.new.held (view self.new.nodes.items) self.new.notes.items }
    {
        let gone = self.cells_noted();
        self.held = less(self.held, gone);
        self.notes.truncate(0);
    }

    /// Closes the journal. It takes no memory.
    pub fn commit(&mut self)
        requires open { self.old.is_open ≡ true }
        requires counted { IsCounted self.old.held (view self.old.nodes.items) self.old.notes.items }
        ensures closed { self.new.is_open ≡ false }
        ensures nodes { self.new.nodes.items ≡ self.old.nodes.items }
        ensures notes { self.new.notes.items ≡ [] }
        ensures counted { IsCounted self.new.held (view self.new.nodes.items) self.new.notes.items }
    {
        self.forget_notes();
        self.is_open = false;
    }

    /// Puts all that was noted back, the newest first, and closes the journal. It takes no memory.
    #[tactic(auto, using(crate::proofs::JournalLemmas::steps_self, crate::proofs::JournalLemmas::steps_then, crate::proofs::JournalLemmas::restores_all, crate::proofs::JournalLemmas::shape_kept))]
    pub fn abandon(&mut self)
        requires open { self.old.is_open ≡ true }
        requires fit { Fit (view self.old.nodes.items) (reverse self.old.notes.items) }
        requires counted { IsCounted self.old.held (view self.old.nodes.items) self.old.notes.items }
        ensures closed { self.new.is_open ≡ false }
        ensures notes { self.new.notes.items ≡ [] }
        ensures shaped { StayShaped (view self.old.nodes.items) (view self.new.nodes.items) }
        ensures restores { Restores (view self.old.nodes.items) (reverse self.old.notes.items) self.old.first (view self.new.nodes.items) }
        ensures counted { IsCounted self.new.held (view self.new.nodes.items) self.new.notes.items }
    {
        while self.put_back_newest() {}
        self.is_open = false;
    }

    // Puts the newest note back, where there is one.
    #[tactic(auto, using(crate::proofs::JournalLemmas::steps_self))]
    fn put_back_newest(&mut self) -> bool
        requires fit { Fit (view self.old.nodes.items) (reverse self.old.notes.items) }
        requires counted { IsCounted self.old.held (view self.old.nodes.items) self.old.notes.items }
        ensures first { self.new.first ≡ self.old.first }
        ensures steps { StepsBack (view self.old.nodes.items) (reverse self.old.notes.items) (view self.new.nodes.items) (reverse self.new.notes.items) }
        ensures over { result ≡ false → self.new.notes.items ≡ [] }
        ensures fewer { result ≡ true → length self.new.notes.items < length self.old.notes.items }
        ensures counted { IsCounted self.new.held (view self.new.nodes.items) self.new.notes.items }
    {
        match self.notes.pop() {
            None => false,
            Some(old) => {
                is_word(self.held);
                let gone = self.nodes[old.node].back(old.field, old.part);
                self.held = less(self.held, gone);
                true
            }
        }
    }
}

pub(crate) fn less(held: u64, gone: u64) -> u64
    requires { gone ≤ held }
    ensures { result ≡ held - gone }
{
    held - gone
}

// What holds of every number. It does nothing when it runs.
pub(crate) fn is_word(_held: u64)
    ensures { _held < 2 ^ 64 }
{}
