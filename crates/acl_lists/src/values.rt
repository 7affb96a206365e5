//! Values and pairs of objects. What is refused leaves the table as it was.

ghost use Rattle.std.specs.Prelude.{◌≡◌, ◌<◌, [], ◌∷◌, length, IfOk, OnErr};
ghost use Rattle.model_prims.specs.Kinds.{by_number};
ghost use Rattle.model_lists.specs.Lists as lists;
ghost use Rattle.model_lists.specs.Lists.{scalar_of, pairs_of};
ghost use Rattle.acl_heap.specs.Objects.{object_of, Lies, Denotes, Extends};
ghost use Rattle.acl_lists.specs.Tables.{list_at, Grown};

use crate::cell::{Cell, ListId};
use crate::table::Lists;
use acl_base::{SymId, Word};
use acl_heap::Heap;
use acl_owned::OwnedObject;
use std::alloc::{AllocError, Global};

const NIL: Word = Word::Sym(SymId(1));

impl Lists {
    /// A copy of a heap's object.
    #[tactic(auto, using(crate::proofs::TableLemmas::grown_none))]
    pub fn value(&mut self, alloc: Global, heap: &Heap, w: Word) -> Result<ListId, AllocError>
        requires { Lies heap.now w }
        ensures within { IfOk result (λ n. n.0 < length self.new) }
        ensures is { IfOk result (λ n. list_at self.new n ≡ lists.Value (object_of heap.now w)) }
        ensures grows { Grown self.old self.new }
        ensures err { OnErr result (self.new ≡ self.old) }
    {
        let o = OwnedObject::put(alloc, heap, w)?;
        let n = self.add(Cell::Value(o))?;
        Ok(n)
    }

    /// Makes a copy of a value in a heap; `NIL` where the list is none.
    #[tactic(auto, using(crate::proofs::ValueLemmas::scalar_value, crate::proofs::ValueLemmas::scalar_no_pairs, crate::proofs::ValueLemmas::scalar_pair, crate::proofs::ValueLemmas::scalar_end, crate::proofs::ValueLemmas::scalar_item, crate::proofs::ValueLemmas::nil_there))]
    pub fn copy_out(&self, list: ListId, heap: &mut Heap) -> Result<Word, AllocError>
        requires { list.0 < length self.now }
        ensures grows { Extends heap.old heap.new }
        ensures ok { IfOk result (λ w. Denotes heap.new w (scalar_of by_number (list_at self.now list))) }
    {
        self.is_table();
        match self.cell(list) {
            Cell::Value(o) => o.copy_out(heap),
            Cell::NoPairs => Ok(NIL),
            Cell::Pair { .. } => Ok(NIL),
            Cell::End => Ok(NIL),
            Cell::Item { .. } => Ok(NIL),
        }
    }

    /// A hash field without pairs.
    pub fn no_pairs(&mut self) -> Result<ListId, AllocError>
        ensures within { IfOk result (λ n. n.0 < length self.new) }
        ensures is { IfOk result (λ n. list_at self.new n ≡ lists.Pairs []) }
        ensures grows { Grown self.old self.new }
        ensures err { OnErr result (self.new ≡ self.old) }
    {
        let n = self.add(Cell::NoPairs)?;
        Ok(n)
    }

    /// A key, which is a value, with its value, before the older pairs.
    pub fn put_pair(
        &mut self,
        key: ListId,
        value: ListId,
        older: ListId,
    ) -> Result<ListId, AllocError>
        requires key { key.0 < length self.old }
        requires value { value.0 < length self.old }
        requires older { older.0 < length self.old }
        ensures within { IfOk result (λ n. n.0 < length self.new) }
        ensures is { IfOk result (λ n. list_at self.new n ≡ lists.Pairs ((scalar_of by_number (list_at self.old key), scalar_of by_number (list_at self.old value)) ∷ pairs_of (list_at self.old older))) }
        ensures grows { Grown self.old self.new }
        ensures err { OnErr result (self.new ≡ self.old) }
    {
        let n = self.add(Cell::Pair { key, value, older })?;
        Ok(n)
    }
}
