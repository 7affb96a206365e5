//! What is done to a hash field.
ghost use Rattle.std.specs.Prelude.{◌≡◌, ◌+◌, [], IsSome, None, IfOk, OnOk, OnErr};
ghost use Rattle.acl_heap.specs.Objects.{Extends};
ghost use Rattle.acl_maps.specs.Cells.{with_cell};
ghost use Rattle.acl_maps.specs.Held.{cells_held};
ghost use Rattle.acl_nodes.specs.Nodes.{Own};
ghost use Rattle.acl_fields.specs.Fields.{Table, table_in};
ghost use Rattle.acl_fields.specs.Held.{change_cells, noted_cells, part_cells};
ghost use Rattle.acl_fields.specs.Parts.{part_of};
ghost use Rattle.acl_fields.specs.Changes.{Counts, GivesBack, IsChange, FindsIn, IsKnownTable, Lists, changed, tabled};

use crate::notes::OldPart;
use crate::slot::Slot;
use acl_base::Word;
use acl_hash::Key;
use acl_heap::Heap;
use acl_maps::{ObjectMap, OwnedEntry};
use acl_syms::Symbols;
use std::alloc::{AllocError, Global};
use std::mem::replace;

/// A change of a hash field that may be undone.
#[derive(Drop)]
pub enum Change {
    /// The key has this entry.
    Put(Key, OwnedEntry),
    /// The key has no value.
    Empty(Key),
    /// No key has a value.
    Clear,
}

// Changes a map, with a note of what was there.
#[tactic(auto, using(crate::proofs::NoteLemmas::entry_gives, crate::proofs::NoteLemmas::table_gives, crate::proofs::HeldLemmas::put_counted, crate::proofs::HeldLemmas::empty_counted, crate::proofs::HeldLemmas::clear_counted))]
fn change_map(m: &mut ObjectMap, alloc: Global, change: Change) -> Result<OldPart, AllocError>
    requires { IsChange change }
    ensures changed { OnOk result (m.new ≡ changed change m.old) }
    ensures noted { IfOk result (λ q. GivesBack q (Own (Table m.new)) (Own (Table m.old))) }
    ensures counted { IfOk result (λ q. cells_held m.new + noted_cells q ≡ cells_held m.old + change_cells change) }
    ensures refused { OnErr result (m.new ≡ m.old) }
{
    match change {
        Change::Put(k, e) => match m.put(alloc, k, e) {
            Ok(held) => Ok(OldPart::Entry(held)),
            Err(e) => Err(e),
        },
        Change::Empty(k) => match m.empty(alloc, &k) {
            Ok(held) => Ok(OldPart::Entry(held)),
            Err(e) => Err(e),
        },
        Change::Clear => {
            let old = replace(m, ObjectMap::new(alloc));
            Ok(OldPart::Whole(Slot::Table(old)))
        }
    }
}

impl Slot {
    /// A copy of the value of a key in a heap, if it has one.
    pub fn find(&self, k: &Key, heap: &mut Heap) -> Result<Option<Word>, AllocError>
        requires { IsSome (table_in (part_of self.now)) }
        ensures grows { Extends heap.old heap.new }
        ensures ok { IfOk result (λ r. FindsIn (part_of self.now) k.now heap.new r) }
    {
        match self {
            Slot::Scalar(_) => unreachable!(),
            Slot::Bytes(_) => unreachable!(),
            Slot::Ints(_) => unreachable!(),
            Slot::Longs(_) => unreachable!(),
            Slot::General(_) => unreachable!(),
            Slot::Generals(_) => unreachable!(),
            Slot::Table(m) => m.get(k, heap),
            Slot::Child(_) => unreachable!(),
            Slot::Children(_) => unreachable!(),
        }
    }

    /// Copies of the pairs in a heap, in the total order of keys.
    pub fn pairs(
        &self,
        alloc: Global,
        heap: &mut Heap,
        syms: &Symbols,
    ) -> Result<Vec<(Word, Word)>, AllocError>
        requires { IsKnownTable syms.now.symbols (part_of self.now) }
        ensures grows { Extends heap.old heap.new }
        ensures ok { IfOk result (λ ws. Lists syms.now.symbols (part_of self.now) heap.new ws.items) }
        ensures refused { OnErr result (heap.new ≡ heap.old) }
    {
        match self {
            Slot::Scalar(_) => unreachable!(),
            Slot::Bytes(_) => unreachable!(),
            Slot::Ints(_) => unreachable!(),
            Slot::Longs(_) => unreachable!(),
            Slot::General(_) => unreachable!(),
            Slot::Generals(_) => unreachable!(),
            Slot::Table(m) => m.pairs(alloc, heap, syms),
            Slot::Child(_) => unreachable!(),
            Slot::Children(_) => unreachable!(),
        }
    }

    /// How many keys have a value.
    pub fn count(&self) -> u64
        requires { IsSome (table_in (part_of self.now)) }
        ensures { Counts (part_of self.now) result }
    {
        match self {
            Slot::Scalar(_) => unreachable!(),
            Slot::Bytes(_) => unreachable!(),
            Slot::Ints(_) => unreachable!(),
            Slot::Longs(_) => unreachable!(),
            Slot::General(_) => unreachable!(),
            Slot::Generals(_) => unreachable!(),
            Slot::Table(m) => m.count(),
            Slot::Child(_) => unreachable!(),
            Slot::Children(_) => unreachable!(),
        }
    }

    /// Changes a hash field, with a note of what was there. It is refused for want of memory alone, and changes nothing then.
    pub fn change(&mut self, alloc: Global, change: Change) -> Result<OldPart, AllocError>
        requires table { IsSome (table_in (part_of self.old)) }
        requires change { IsChange change }
        ensures changed { OnOk result (part_of self.new ≡ tabled (changed change) (part_of self.old)) }
        ensures noted { IfOk result (λ q. GivesBack q (tabled (changed change) (part_of self.old)) (part_of self.old)) }
        ensures counted { IfOk result (λ q. part_cells (tabled (changed change) (part_of self.old)) + noted_cells q ≡ part_cells (part_of self.old) + change_cells change) }
        ensures refused { OnErr result (part_of self.new ≡ part_of self.old) }
    {
        match self {
            Slot::Scalar(_) => unreachable!(),
            Slot::Bytes(_) => unreachable!(),
            Slot::Ints(_) => unreachable!(),
            Slot::Longs(_) => unreachable!(),
            Slot::General(_) => unreachable!(),
            Slot::Generals(_) => unreachable!(),
            Slot::Table(m) => match change_map(m, alloc, change) {
                Ok(part) => Ok(part),
                Err(e) => Err(e),
            },
            Slot::Child(_) => unreachable!(),
            Slot::Children(_) => unreachable!(),
        }
    }

    /// Takes a key and its value away, and tells how many cells they took. It takes no memory.
    #[tactic(auto, using(crate::proofs::HeldLemmas::remove_counted))]
    pub fn remove(&mut self, k: &Key) -> u64
        requires { IsSome (table_in (part_of self.old)) }
        ensures removed { part_of self.new ≡ tabled (with_cell k.now None) (part_of self.old) }
        ensures gone { part_cells (tabled (with_cell k.now None) (part_of self.old)) + result ≡ part_cells (part_of self.old) }
    {
        match self {
            Slot::Scalar(_) => unreachable!(),
            Slot::Bytes(_) => unreachable!(),
            Slot::Ints(_) => unreachable!(),
            Slot::Longs(_) => unreachable!(),
            Slot::General(_) => unreachable!(),
            Slot::Generals(_) => unreachable!(),
            Slot::Table(m) => m.remove(k),
            Slot::Child(_) => unreachable!(),
            Slot::Children(_) => unreachable!(),
        }
    }

    /// Takes all keys and values away. It takes no memory.
    pub fn clear(&mut self)
        requires { IsSome (table_in (part_of self.old)) }
        ensures { part_of self.new ≡ tabled (λ cs. []) (part_of self.old) }
    {
        match self {
            Slot::Scalar(_) => unreachable!(),
            Slot::Bytes(_) => unreachable!(),
            Slot::Ints(_) => unreachable!(),
            Slot::Longs(_) => unreachable!(),
            Slot::General(_) => unreachable!(),
            Slot::Generals(_) => unreachable!(),
            Slot::Table(m) => m.clear(),
            Slot::Child(_) => unreachable!(),
            Slot::Children(_) => unreachable!(),
        }
    }
}
