//! Arrays of objects.
ghost use Rattle.std.specs.Prelude.{◌≡◌, ◌+◌, ◌-◌, ◌<◌, ◌≤◌, ◌⊎◌, ◌++◌, length, replicate, take, slice_index_or, slice_set, IfOk, OnOk, OnErr};
ghost use Rattle.std.specs.List.{sum_by};
ghost use Rattle.model_objects.specs.Object.{cells};
ghost use Rattle.acl_owned.specs.Owned.{IsSum};
ghost use Rattle.acl_heap.specs.Objects.{object_of, nothing, Lies, Denotes, Extends};

use crate::OwnedObject;
use acl_base::Word;
use acl_heap::Heap;
use std::alloc::{AllocError, Global};
use std::mem::replace;

/// An array of objects, with the word of what new elements begin as.
#[derive(Drop)]
pub struct ObjectArray {
    pub initial: Word,
    pub elements: Vec<OwnedObject>,
}

// So many more copies of a heap's object. What is refused has added some.
#[tactic(auto, using(crate::proofs::ArrayLemmas::more_start, crate::proofs::ArrayLemmas::more_step, crate::proofs::ArrayLemmas::more_kept))]
fn push_copies(
    elements: &mut Vec<OwnedObject>,
    alloc: Global,
    heap: &Heap,
    w: Word,
    count: usize,
) -> Result<(), AllocError>
    requires { Lies heap.now w }
    ensures ok { OnOk result (elements.new.items ≡ elements.old.items ++ replicate count (object_of heap.now w)) }
    ensures kept { take (length elements.old.items) elements.new.items ≡ elements.old.items }
{
    for _ in 0..count {
        let o = OwnedObject::put(alloc, heap, w)?;
        elements.push(o)?;
    }
    Ok(())
}

// The first elements once more.
#[tactic(auto, using(crate::proofs::ArrayLemmas::copies_step))]
fn first_copies(
    elements: &Vec<OwnedObject>,
    alloc: Global,
    count: usize,
) -> Result<Vec<OwnedObject>, AllocError>
    requires { count ≤ length elements.now.items }
    ensures { IfOk result (λ v. v.items ≡ take count elements.now.items) }
{
    let mut copies = Vec::new(alloc);
    for i in 0..count {
        let o = elements[i].copied(alloc)?;
        copies.push(o)?;
    }
    Ok(copies)
}

// The cells of all elements, beside so many others.
#[tactic(auto, using(crate::proofs::CountLemmas::count_step, crate::proofs::CountLemmas::count_over, crate::proofs::CountLemmas::count_end))]
fn count_cells(elements: &Vec<OwnedObject>, start: u64) -> Option<u64>
    ensures { IsSum result (start + sum_by cells elements.now.items) }
{
    let mut total = start;
    for i in 0..elements.len() {
        match total.checked_add(elements[i].cells()) {
            Some(sum) => total = sum,
            None => return None,
        }
    }
    Some(total)
}

fn shorter(a: usize, b: usize) -> usize
    ensures first { result ≤ a }
    ensures second { result ≤ b }
    ensures one { (result ≡ a) ⊎ (result ≡ b) }
{
    if a < b { a } else { b }
}

impl ObjectArray {
    /// So many copies of a heap's object.
    pub fn filled(
        alloc: Global,
        heap: &Heap,
        initial: Word,
        count: usize,
    ) -> Result<ObjectArray, AllocError>
        requires { Lies heap.now initial }
        ensures initial { IfOk result (λ a. a.initial ≡ initial) }
        ensures elements { IfOk result (λ a. a.elements.items ≡ replicate count (object_of heap.now initial)) }
    {
        let mut elements = Vec::new(alloc);
        push_copies(&mut elements, alloc, heap, initial, count)?;
        Ok(ObjectArray { initial, elements })
    }

    /// Makes a copy of an element in a heap.
    pub fn copy_out(&self, index: usize, heap: &mut Heap) -> Result<Word, AllocError>
        requires { index < length self.now.elements.items }
        ensures grows { Extends heap.old heap.new }
        ensures ok { IfOk result (λ w. Denotes heap.new w (slice_index_or self.now.elements.items index nothing)) }
    {
        self.elements[index].copy_out(heap)
    }

    /// How many cells it holds beside so many others, where all are fewer than 2^64.
    pub fn counted(&self, start: u64) -> Option<u64>
        ensures { IsSum result (start + sum_by cells self.now.elements.items) }
    {
        count_cells(&self.elements, start)
    }

    /// Another element in place of one, which is handed out.
    pub fn exchange(&mut self, index: usize, o: OwnedObject) -> OwnedObject
        requires { index < length self.old.elements.items }
        ensures old { result ≡ slice_index_or self.old.elements.items index nothing }
        ensures initial { self.new.initial ≡ self.old.initial }
        ensures elements { self.new.elements.items ≡ slice_set self.old.elements.items index o }
    {
        replace(&mut self.elements[index], o)
    }

    /// The same elements, cut or lengthened, apart from these. The heap has what new ones begin as.
    pub fn stretched(
        &self,
        alloc: Global,
        heap: &Heap,
        count: usize,
    ) -> Result<ObjectArray, AllocError>
        requires { Lies heap.now self.now.initial }
        ensures initial { IfOk result (λ a. a.initial ≡ self.now.initial) }
        ensures elements { IfOk result (λ a. a.elements.items ≡ take count self.now.elements.items ++ replicate (count - length self.now.elements.items) (object_of heap.now self.now.initial)) }
    {
        let shared = shorter(count, self.elements.len());
        let mut elements = first_copies(&self.elements, alloc, shared)?;
        push_copies(&mut elements, alloc, heap, self.initial, count - shared)?;
        Ok(ObjectArray {
            initial: self.initial,
            elements,
        })
    }

    /// Cuts it, or lengthens it.
    pub fn resize(&mut self, alloc: Global, heap: &Heap, count: usize) -> Result<(), AllocError>
        requires { Lies heap.now self.old.initial }
        ensures initial { self.new.initial ≡ self.old.initial }
        ensures elements { OnOk result (self.new.elements.items ≡ take count self.old.elements.items ++ replicate (count - length self.old.elements.items) (object_of heap.now self.old.initial)) }
        ensures refused { OnErr result (self.new.elements.items ≡ self.old.elements.items) }
    {
        let before = self.elements.len();
        if count < before {
            self.elements.truncate(count);
            return Ok(());
        }
        match push_copies(
            &mut self.elements,
            alloc,
            heap,
            self.initial,
            count - before,
        ) {
            Ok(()) => Ok(()),
            Err(e) => {
                self.elements.truncate(before);
                Err(e)
            }
        }
    }
}
