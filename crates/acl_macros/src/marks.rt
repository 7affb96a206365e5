//! The marks between formals.

ghost use Rattle.std.specs.Prelude.{◌≡◌};
ghost use Rattle.model_events.specs.Macros.{is_rest_mark, is_mark};
ghost use Rattle.acl_heap.specs.Objects.{object_of, Lies};

use crate::words;
use acl_base::Word;
use acl_heap::Heap;
use acl_layers::is_symbol;

/// Whether it is the mark of a rest.
pub fn is_rest_mark(heap: &Heap, x: Word) -> bool
    requires { Lies heap.now x }
    ensures { result ≡ is_rest_mark (object_of heap.now x) }
{
    if is_symbol(heap, x, words::REST) {
        return true;
    }
    is_symbol(heap, x, words::BODY)
}

/// Whether it is a mark.
pub fn is_mark(heap: &Heap, x: Word) -> bool
    requires { Lies heap.now x }
    ensures { result ≡ is_mark (object_of heap.now x) }
{
    if is_symbol(heap, x, words::OPTIONAL) {
        return true;
    }
    if is_rest_mark(heap, x) {
        return true;
    }
    is_symbol(heap, x, words::KEY)
}
