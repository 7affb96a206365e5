//! What the primitives find in lists. Each goes along its list once.

ghost use Rattle.std.specs.Prelude.{◌≡◌, IfOk};
ghost use Rattle.acl_heap.specs.Objects.{object_of, Lies, Denotes};
ghost use Rattle.model_prims.specs.Kinds.{by_number, same_object};
ghost use Rattle.model_prims.specs.Lists.{len, is_true_list, is_alist, element, member, assoc, car, cdr};

use crate::NIL;
use crate::kinds::{is_nil, is_pair};
use acl_base::Word;
use acl_heap::{Heap, Seen};
use std::alloc::AllocError;

pub fn car(heap: &Heap, x: Word) -> Word
    requires { Lies heap.now x }
    ensures { Denotes heap.now result (car by_number (object_of heap.now x)) }
{
    match heap.look(x) {
        Seen::Pair(first, _) => first,
        Seen::Integer(_) => NIL,
        Seen::Symbol(_) => NIL,
        Seen::Text(_) => NIL,
    }
}

pub fn cdr(heap: &Heap, x: Word) -> Word
    requires { Lies heap.now x }
    ensures { Denotes heap.now result (cdr by_number (object_of heap.now x)) }
{
    match heap.look(x) {
        Seen::Pair(_, rest) => rest,
        Seen::Integer(_) => NIL,
        Seen::Symbol(_) => NIL,
        Seen::Text(_) => NIL,
    }
}

pub fn is_true_list(heap: &Heap, list: Word) -> bool
    requires { Lies heap.now list }
    ensures { result ≡ is_true_list by_number (object_of heap.now list) }
{
    let mut rest = list;
    while let Seen::Pair(_, next) = heap.look(rest) {
        rest = next;
    }
    is_nil(heap, rest)
}

pub fn is_alist(heap: &Heap, list: Word) -> bool
    requires { Lies heap.now list }
    ensures { result ≡ is_alist by_number (object_of heap.now list) }
{
    let mut rest = list;
    while let Seen::Pair(first, next) = heap.look(rest) {
        if !is_pair(heap, first) {
            return false;
        }
        rest = next;
    }
    is_nil(heap, rest)
}

/// The pairs along the list.
pub fn len(heap: &Heap, list: Word) -> u64
    requires { Lies heap.now list }
    ensures { result ≡ len (object_of heap.now list) }
{
    heap.is_heap();
    let mut count = 0;
    let mut rest = list;
    while let Seen::Pair(_, next) = heap.look(rest) {
        count += 1;
        rest = next;
    }
    count
}

/// The element of this number; `NIL` past the end.
pub fn element(heap: &Heap, number: u128, list: Word) -> Word
    requires { Lies heap.now list }
    ensures { Denotes heap.now result (element by_number number (object_of heap.now list)) }
{
    let mut left = number;
    let mut rest = list;
    while let Seen::Pair(first, next) = heap.look(rest) {
        if left == 0 {
            return first;
        }
        left -= 1;
        rest = next;
    }
    NIL
}

/// Whether the two are the same object.
pub fn same(heap: &Heap, x: Word, y: Word) -> Result<bool, AllocError>
    requires left { Lies heap.now x }
    requires right { Lies heap.now y }
    ensures { IfOk result (λ b. b ≡ same_object by_number (object_of heap.now x) (object_of heap.now y)) }
{
    let equal = heap.equal(x, y)?;
    Ok(equal)
}

/// The first tail that begins with the object, else `NIL`.
pub fn member(heap: &Heap, x: Word, list: Word) -> Result<Word, AllocError>
    requires object { Lies heap.now x }
    requires list { Lies heap.now list }
    ensures { IfOk result (λ w. Denotes heap.now w (member by_number (object_of heap.now x) (object_of heap.now list))) }
{
    let mut rest = list;
    while let Seen::Pair(first, next) = heap.look(rest) {
        if same(heap, x, first)? {
            return Ok(rest);
        }
        rest = next;
    }
    Ok(NIL)
}

/// The first element whose car is the object, else `NIL`.
pub fn assoc(heap: &Heap, x: Word, list: Word) -> Result<Word, AllocError>
    requires object { Lies heap.now x }
    requires list { Lies heap.now list }
    ensures { IfOk result (λ w. Denotes heap.now w (assoc by_number (object_of heap.now x) (object_of heap.now list))) }
{
    let mut rest = list;
    while let Seen::Pair(first, next) = heap.look(rest) {
        if same(heap, x, car(heap, first))? {
            return Ok(first);
        }
        rest = next;
    }
    Ok(NIL)
}
