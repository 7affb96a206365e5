//! The lists that the primitives make.

ghost use Rattle.std.specs.Prelude.{IfOk};
ghost use Rattle.model_objects.specs.Object.{list_onto};
ghost use Rattle.acl_heap.specs.Objects.{object_of, Lies, Extends};
ghost use Rattle.acl_prims.specs.Made.{Holds, AllLie, AreObjects, objects_of, elements_of, lacking};
ghost use Rattle.model_prims.specs.Kinds.{by_number};
ghost use Rattle.model_prims.specs.Lists.{appended, revappended, updated, union};

use crate::kinds::is_pair;
use crate::lists::{car, cdr, member};
use acl_base::Word;
use acl_heap::{Heap, HeapFault, Seen};
use std::alloc::{AllocError, Global};

/// The elements of the first list, the last of them first, in front of the second.
#[tactic(auto, using(crate::proofs::Weights::heavy))]
pub fn revappended(heap: &mut Heap, list: Word, end: Word) -> Result<Word, HeapFault>
    requires list { Lies heap.old list }
    requires end { Lies heap.old end }
    ensures made { Holds heap.new (revappended (object_of heap.old list) (object_of heap.old end)) result }
    ensures grows { Extends heap.old heap.new }
{
    let mut done = end;
    let mut rest = list;
    while let Seen::Pair(first, next) = heap.look(rest) {
        match heap.cons(first, done) {
            Ok(pair) => done = pair,
            Err(fault) => return Err(fault),
        }
        rest = next;
    }
    heap.is_heap();
    Ok(done)
}

/// These in front of an end.
#[tactic(auto, using(crate::proofs::Fronts::fronts))]
fn onto(heap: &mut Heap, mut front: Vec<Word>, end: Word) -> Result<Word, HeapFault>
    requires front { AllLie heap.old front.items }
    requires end { Lies heap.old end }
    ensures made { Holds heap.new (list_onto (objects_of heap.old front.items) (object_of heap.old end)) result }
    ensures grows { Extends heap.old heap.new }
{
    let mut done = end;
    while let Some(last) = front.pop() {
        match heap.cons(last, done) {
            Ok(pair) => done = pair,
            Err(fault) => return Err(fault),
        }
    }
    heap.is_heap();
    Ok(done)
}

/// The elements of a list.
fn elements(alloc: Global, heap: &Heap, list: Word) -> Result<Vec<Word>, AllocError>
    requires { Lies heap.now list }
    ensures { IfOk result (λ v. AreObjects heap.now v.items (elements_of (object_of heap.now list))) }
{
    let mut front = Vec::new(alloc);
    let mut rest = list;
    while let Seen::Pair(first, next) = heap.look(rest) {
        front.push(first)?;
        rest = next;
    }
    Ok(front)
}

/// The elements of a list that another lacks.
fn lacking(alloc: Global, heap: &Heap, list: Word, other: Word) -> Result<Vec<Word>, AllocError>
    requires list { Lies heap.now list }
    requires other { Lies heap.now other }
    ensures { IfOk result (λ v. AreObjects heap.now v.items (lacking (object_of heap.now list) (object_of heap.now other))) }
{
    let mut front = Vec::new(alloc);
    let mut rest = list;
    while let Seen::Pair(first, next) = heap.look(rest) {
        if !is_pair(heap, member(heap, first, other)?) {
            front.push(first)?;
        }
        rest = next;
    }
    Ok(front)
}

/// The elements of the first list in front of the second.
#[tactic(auto, using(crate::proofs::Fronts::appended_is))]
pub fn appended(alloc: Global, heap: &mut Heap, list: Word, end: Word) -> Result<Word, HeapFault>
    requires list { Lies heap.old list }
    requires end { Lies heap.old end }
    ensures made { Holds heap.new (appended (object_of heap.old list) (object_of heap.old end)) result }
    ensures grows { Extends heap.old heap.new }
{
    match elements(alloc, heap, list) {
        Ok(front) => onto(heap, front, end),
        Err(_) => Err(HeapFault::Memory),
    }
}

/// The elements of the first list that the second lacks, in front of the second.
#[tactic(auto, using(crate::proofs::Fronts::union_is))]
pub fn union(alloc: Global, heap: &mut Heap, list: Word, end: Word) -> Result<Word, HeapFault>
    requires list { Lies heap.old list }
    requires end { Lies heap.old end }
    ensures made { Holds heap.new (union by_number (object_of heap.old list) (object_of heap.old end)) result }
    ensures grows { Extends heap.old heap.new }
{
    match lacking(alloc, heap, list, end) {
        Ok(front) => onto(heap, front, end),
        Err(_) => Err(HeapFault::Memory),
    }
}

/// The list with another element of this number, and with `NIL` for what there is not.
#[tactic(auto, using(crate::proofs::Fronts::updates))]
pub fn updated(
    alloc: Global,
    heap: &mut Heap,
    number: u64,
    value: Word,
    list: Word,
) -> Result<Word, HeapFault>
    requires value { Lies heap.old value }
    requires list { Lies heap.old list }
    ensures made { Holds heap.new (updated by_number number (object_of heap.old value) (object_of heap.old list)) result }
    ensures grows { Extends heap.old heap.new }
{
    let mut front = Vec::new(alloc);
    let mut rest = list;
    let mut left = number;
    while left > 0 {
        front.push(car(heap, rest))?;
        rest = cdr(heap, rest);
        left -= 1;
    }
    let after = cdr(heap, rest);
    match heap.cons(value, after) {
        Ok(end) => onto(heap, front, end),
        Err(fault) => Err(fault),
    }
}
