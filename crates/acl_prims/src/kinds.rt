//! What kind of object a word stands for.

ghost use Rattle.std.specs.Prelude.{◌≡◌};
ghost use Rattle.acl_heap.specs.Objects.{object_of, Lies};
ghost use Rattle.model_prims.specs.Kinds.{by_number, is_symbol, is_string, is_pair, is_nil, is_boolean};

use acl_base::Word;
use acl_heap::{Heap, Seen};

pub fn is_pair(heap: &Heap, x: Word) -> bool
    requires { Lies heap.now x }
    ensures { result ≡ is_pair (object_of heap.now x) }
{
    match heap.look(x) {
        Seen::Pair(_, _) => true,
        Seen::Integer(_) => false,
        Seen::Symbol(_) => false,
        Seen::Text(_) => false,
    }
}

pub fn is_nil(heap: &Heap, x: Word) -> bool
    requires { Lies heap.now x }
    ensures { result ≡ is_nil by_number (object_of heap.now x) }
{
    match heap.look(x) {
        Seen::Symbol(s) => s.0 == 1,
        Seen::Pair(_, _) => false,
        Seen::Integer(_) => false,
        Seen::Text(_) => false,
    }
}

pub fn is_symbol(heap: &Heap, x: Word) -> bool
    requires { Lies heap.now x }
    ensures { result ≡ is_symbol (object_of heap.now x) }
{
    match heap.look(x) {
        Seen::Integer(_) => false,
        Seen::Symbol(_) => true,
        Seen::Text(_) => false,
        Seen::Pair(_, _) => false,
    }
}

pub fn is_string(heap: &Heap, x: Word) -> bool
    requires { Lies heap.now x }
    ensures { result ≡ is_string (object_of heap.now x) }
{
    match heap.look(x) {
        Seen::Integer(_) => false,
        Seen::Symbol(_) => false,
        Seen::Text(_) => true,
        Seen::Pair(_, _) => false,
    }
}

pub fn is_boolean(heap: &Heap, x: Word) -> bool
    requires { Lies heap.now x }
    ensures { result ≡ is_boolean by_number (object_of heap.now x) }
{
    match heap.look(x) {
        Seen::Integer(_) => false,
        Seen::Symbol(s) => s.0 == 0 || s.0 == 1,
        Seen::Text(_) => false,
        Seen::Pair(_, _) => false,
    }
}
