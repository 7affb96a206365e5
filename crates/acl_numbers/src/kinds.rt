//! Which integer a word stands for, and what it counts as.

ghost use Rattle.std.specs.Prelude.{◌≡◌, pos, int_lt, IfSome};
ghost use Rattle.acl_base.specs.declared.Word.TheVariants.{Small};
ghost use Rattle.acl_heap.specs.Objects.{object_of, Lies};
ghost use Rattle.model_objects.specs.Object.{Integer};
ghost use Rattle.model_prims.specs.Kinds.{by_number, is_integer, is_natural, is_positive, same_object};
ghost use Rattle.model_prims.specs.Numbers.{fix, natural_of};

use acl_base::Word;
use acl_heap::{Heap, Seen};

pub fn is_integer(heap: &Heap, x: Word) -> bool
    requires { Lies heap.now x }
    ensures { result ≡ is_integer (object_of heap.now x) }
{
    match heap.look(x) {
        Seen::Integer(_) => true,
        Seen::Symbol(_) => false,
        Seen::Text(_) => false,
        Seen::Pair(_, _) => false,
    }
}

pub fn is_natural(heap: &Heap, x: Word) -> bool
    requires { Lies heap.now x }
    ensures { result ≡ is_natural (object_of heap.now x) }
{
    match heap.look(x) {
        Seen::Integer(n) => n >= 0,
        Seen::Symbol(_) => false,
        Seen::Text(_) => false,
        Seen::Pair(_, _) => false,
    }
}

pub fn is_positive(heap: &Heap, x: Word) -> bool
    requires { Lies heap.now x }
    ensures { result ≡ is_positive (object_of heap.now x) }
{
    match heap.look(x) {
        Seen::Integer(n) => n > 0,
        Seen::Symbol(_) => false,
        Seen::Text(_) => false,
        Seen::Pair(_, _) => false,
    }
}

/// Whether the object is the integer 0.
pub fn is_zero(heap: &Heap, x: Word) -> bool
    requires { Lies heap.now x }
    ensures { result ≡ same_object by_number (object_of heap.now x) (Integer (pos 0)) }
{
    match heap.look(x) {
        Seen::Integer(n) => n == 0,
        Seen::Symbol(_) => false,
        Seen::Text(_) => false,
        Seen::Pair(_, _) => false,
    }
}

/// The integer that the object counts as: 0 where it is none.
pub fn fix(heap: &Heap, x: Word) -> i128
    requires { Lies heap.now x }
    ensures { result ≡ fix (object_of heap.now x) }
{
    match heap.look(x) {
        Seen::Integer(n) => n,
        Seen::Symbol(_) => 0,
        Seen::Text(_) => 0,
        Seen::Pair(_, _) => 0,
    }
}

/// The number that the object counts as: 0 where it is no integer, or one below 0.
pub fn natural(heap: &Heap, x: Word) -> u128
    requires { Lies heap.now x }
    ensures { result ≡ natural_of (object_of heap.now x) }
{
    let n = fix(heap, x);
    if n < 0 { 0 } else { n as u128 }
}

/// The integer of a word, where it has 64 bits.
pub fn small(x: Word) -> Option<i64>
    ensures { IfSome result (λ n. x ≡ Small n) }
{
    match x {
        Word::Small(n) => Some(n),
        Word::Big(_) => None,
        Word::Sym(_) => None,
        Word::Str(_) => None,
        Word::Cons(_) => None,
    }
}

/// Whether the first counts as less than the second.
pub fn below(heap: &Heap, x: Word, y: Word) -> bool
    requires x { Lies heap.now x }
    requires y { Lies heap.now y }
    ensures { result ≡ int_lt (fix (object_of heap.now x)) (fix (object_of heap.now y)) }
{
    if let Some(i) = small(x) {
        if let Some(j) = small(y) {
            return i < j;
        }
    }
    fix(heap, x) < fix(heap, y)
}
