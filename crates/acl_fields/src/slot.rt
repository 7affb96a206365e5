//! Fields of nodes, as they lie in memory.
ghost use Rattle.std.specs.Prelude.{◌≡◌, ◌-◌, ◌≤◌, ◌⊎◌, ◌++◌, drop, length, replicate, take, Some, IfOk, OnOk, OnErr};
ghost use Rattle.acl_heap.specs.Objects.{Denotes, Extends};
ghost use Rattle.acl_fields.specs.Fields.{HasLength, IsElement, IsFilled, IsHeld, IsKept, IsSized, element, held, length_of, number_of, sized, with_element};
ghost use Rattle.acl_fields.specs.Parts.{HasChild, child_of, part_of};

use acl_base::Word;
use acl_heap::Heap;
use acl_maps::ObjectMap;
use acl_owned::{ObjectArray, OwnedObject};
use acl_rawmem::RawArray;
use std::alloc::{AllocError, Global};
use std::mem::replace;

/// An array, with what new elements begin as.
#[derive(Drop)]
pub struct Array<T: Copy> {
    pub initial: T,
    pub elements: RawArray<T>,
}

/// A field.
#[derive(Drop)]
pub enum Slot {
    /// An integer.
    Scalar(i64),
    /// Integers of one byte.
    Bytes(Array<u8>),
    /// Integers of four bytes.
    Ints(Array<i32>),
    /// Integers of eight bytes.
    Longs(Array<i64>),
    /// An object of any kind.
    General(OwnedObject),
    /// Objects of any kind.
    Generals(ObjectArray),
    /// A hash field.
    Table(ObjectMap),
    /// An object, by the number of its node.
    Child(usize),
    /// An array of objects.
    Children(Vec<usize>),
}

/// The integer of a small word.
pub fn number(w: Word) -> i64
    ensures { result ≡ number_of w }
{
    match w {
        Word::Small(v) => v,
        Word::Big(_) => 0,
        Word::Sym(_) => 0,
        Word::Str(_) => 0,
        Word::Cons(_) => 0,
    }
}

fn shorter(a: usize, b: usize) -> usize
    ensures first { result ≤ a }
    ensures second { result ≤ b }
    ensures one { (result ≡ a) ⊎ (result ≡ b) }
{
    if a < b { a } else { b }
}

// The first elements of one array over those of another.
fn copy_first<T: Copy>(from: &RawArray<T>, to: &mut RawArray<T>, count: usize)
    requires from { count ≤ length from.now }
    requires to { count ≤ length to.old }
    ensures { to.new ≡ take count from.now ++ drop count to.old }
{
    for i in 0..count {
        to.set(i, from.get(i));
    }
}

impl<T: Copy> Array<T> {
    /// So many elements that begin as this.
    pub fn filled(alloc: Global, count: usize, initial: T) -> Result<Array<T>, AllocError>
        ensures initial { IfOk result (λ a. a.initial ≡ initial) }
        ensures elements { IfOk result (λ a. a.elements ≡ replicate count initial) }
    {
        let elements = RawArray::filled(alloc, count, initial)?;
        Ok(Array { initial, elements })
    }

    /// The same elements, cut or lengthened, in memory of their own.
    pub fn stretched(&self, alloc: Global, count: usize) -> Result<Array<T>, AllocError>
        ensures initial { IfOk result (λ a. a.initial ≡ self.now.initial) }
        ensures elements { IfOk result (λ a. a.elements ≡ take count self.now.elements ++ replicate (count - length self.now.elements) self.now.initial) }
    {
        let mut elements = RawArray::filled(alloc, count, self.initial)?;
        let shared = shorter(count, self.elements.len());
        copy_first(&self.elements, &mut elements, shared);
        Ok(Array {
            initial: self.initial,
            elements,
        })
    }

    /// Cuts it, or lengthens it.
    pub fn resize(&mut self, count: usize) -> Result<(), AllocError>
        ensures initial { self.new.initial ≡ self.old.initial }
        ensures elements { OnOk result (self.new.elements ≡ take count self.old.elements ++ replicate (count - length self.old.elements) self.old.initial) }
        ensures refused { OnErr result (self.new.elements ≡ self.old.elements) }
    {
        match self.elements.resize(count, self.initial) {
            Ok(()) => Ok(()),
            Err(e) => Err(e),
        }
    }
}

impl Slot {
    /// The integer of this index.
    pub fn get(&self, index: usize) -> i64
        requires { IsElement (part_of self.now) index }
        ensures { result ≡ element (part_of self.now) index }
    {
        match self {
            Slot::Scalar(v) => *v,
            Slot::Bytes(a) => a.elements.get(index) as i64,
            Slot::Ints(a) => a.elements.get(index) as i64,
            Slot::Longs(a) => a.elements.get(index),
            Slot::General(_) => unreachable!(),
            Slot::Generals(_) => unreachable!(),
            Slot::Table(_) => unreachable!(),
            Slot::Child(_) => unreachable!(),
            Slot::Children(_) => unreachable!(),
        }
    }

    /// Another integer of this index.
    pub fn put(&mut self, index: usize, value: i64)
        requires is { IsElement (part_of self.old) index }
        requires fits { IsKept (part_of self.old) value }
        ensures { part_of self.new ≡ with_element (part_of self.old) index value }
    {
        match self {
            Slot::Scalar(v) => *v = value,
            Slot::Bytes(a) => a.elements.set(index, value as u8),
            Slot::Ints(a) => a.elements.set(index, value as i32),
            Slot::Longs(a) => a.elements.set(index, value),
            Slot::General(_) => unreachable!(),
            Slot::Generals(_) => unreachable!(),
            Slot::Table(_) => unreachable!(),
            Slot::Child(_) => unreachable!(),
            Slot::Children(_) => unreachable!(),
        }
    }

    /// Cuts an array, or lengthens it with what its elements begin as.
    #[tactic(auto, using(crate::proofs::SlotLemmas::bytes_sized))]
    pub fn stretch(&mut self, alloc: Global, heap: &Heap, length: usize) -> Result<(), AllocError>
        requires sized { IsSized (part_of self.old) }
        requires filled { IsFilled heap.now (part_of self.old) }
        ensures elements { OnOk result (part_of self.new ≡ sized heap.now (part_of self.old) length) }
        ensures refused { OnErr result (part_of self.new ≡ part_of self.old) }
    {
        match self {
            Slot::Scalar(_) => unreachable!(),
            Slot::Bytes(a) => a.resize(length),
            Slot::Ints(a) => a.resize(length),
            Slot::Longs(a) => a.resize(length),
            Slot::General(_) => unreachable!(),
            Slot::Generals(a) => a.resize(alloc, heap, length),
            Slot::Table(_) => unreachable!(),
            Slot::Child(_) => unreachable!(),
            Slot::Children(_) => unreachable!(),
        }
    }

    /// An array cut or lengthened, in memory of its own.
    #[tactic(auto, using(crate::proofs::SlotLemmas::bytes_sized))]
    pub fn stretched(&self, alloc: Global, heap: &Heap, length: usize) -> Result<Slot, AllocError>
        requires sized { IsSized (part_of self.now) }
        requires filled { IsFilled heap.now (part_of self.now) }
        ensures { IfOk result (λ s. part_of s ≡ sized heap.now (part_of self.now) length) }
    {
        match self {
            Slot::Scalar(_) => unreachable!(),
            Slot::Bytes(a) => {
                let array = a.stretched(alloc, length)?;
                Ok(Slot::Bytes(array))
            }
            Slot::Ints(a) => {
                let array = a.stretched(alloc, length)?;
                Ok(Slot::Ints(array))
            }
            Slot::Longs(a) => {
                let array = a.stretched(alloc, length)?;
                Ok(Slot::Longs(array))
            }
            Slot::General(_) => unreachable!(),
            Slot::Generals(a) => {
                let array = a.stretched(alloc, heap, length)?;
                Ok(Slot::Generals(array))
            }
            Slot::Table(_) => unreachable!(),
            Slot::Child(_) => unreachable!(),
            Slot::Children(_) => unreachable!(),
        }
    }

    /// Cuts an array, or lengthens it, in memory of its own, and hands the old one out.
    pub fn renew(&mut self, alloc: Global, heap: &Heap, length: usize) -> Result<Slot, AllocError>
        requires sized { IsSized (part_of self.old) }
        requires filled { IsFilled heap.now (part_of self.old) }
        ensures elements { OnOk result (part_of self.new ≡ sized heap.now (part_of self.old) length) }
        ensures old { IfOk result (λ s. part_of s ≡ part_of self.old) }
        ensures refused { OnErr result (part_of self.new ≡ part_of self.old) }
    {
        match self.stretched(alloc, heap, length) {
            Ok(slot) => Ok(replace(self, slot)),
            Err(e) => Err(e),
        }
    }

    /// The number of elements or children.
    pub fn length(&self) -> u32
        requires { HasLength (part_of self.now) }
        ensures { result ≡ length_of (part_of self.now) }
    {
        match self {
            Slot::Scalar(_) => unreachable!(),
            Slot::Bytes(a) => a.elements.len() as u32,
            Slot::Ints(a) => a.elements.len() as u32,
            Slot::Longs(a) => a.elements.len() as u32,
            Slot::General(_) => unreachable!(),
            Slot::Generals(a) => a.elements.len() as u32,
            Slot::Table(_) => unreachable!(),
            Slot::Child(_) => unreachable!(),
            Slot::Children(cs) => cs.len() as u32,
        }
    }

    /// Makes a copy of the object of this index in a heap.
    pub fn copy_out(&self, index: usize, heap: &mut Heap) -> Result<Word, AllocError>
        requires { IsHeld (part_of self.now) index }
        ensures grows { Extends heap.old heap.new }
        ensures ok { IfOk result (λ w. Denotes heap.new w (held (part_of self.now) index)) }
    {
        match self {
            Slot::Scalar(_) => unreachable!(),
            Slot::Bytes(_) => unreachable!(),
            Slot::Ints(_) => unreachable!(),
            Slot::Longs(_) => unreachable!(),
            Slot::General(o) => o.copy_out(heap),
            Slot::Generals(a) => a.copy_out(index, heap),
            Slot::Table(_) => unreachable!(),
            Slot::Child(_) => unreachable!(),
            Slot::Children(_) => unreachable!(),
        }
    }

    /// The number of a child's node.
    pub fn child(&self, index: usize) -> usize
        requires { HasChild (part_of self.now) index }
        ensures { child_of (part_of self.now) index ≡ Some result }
    {
        match self {
            Slot::Scalar(_) => unreachable!(),
            Slot::Bytes(_) => unreachable!(),
            Slot::Ints(_) => unreachable!(),
            Slot::Longs(_) => unreachable!(),
            Slot::General(_) => unreachable!(),
            Slot::Generals(_) => unreachable!(),
            Slot::Table(_) => unreachable!(),
            Slot::Child(c) => *c,
            Slot::Children(cs) => cs[index],
        }
    }
}
