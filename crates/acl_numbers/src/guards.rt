//! The guards of the primitives on integers.

ghost use Rattle.std.specs.Prelude.{◌≡◌};
ghost use Rattle.acl_heap.specs.Objects.{object_of, Lies};
ghost use Rattle.model_prims.specs.Kinds.{by_number};
ghost use Rattle.model_prims.specs.Guards.{are_integers, can_divide, arithmetic_guard};

use crate::kinds::{is_integer, is_natural, is_zero};
use acl_base::Word;
use acl_heap::Heap;
use model_prims::Arithmetic;

/// Whether both are integers.
pub fn are_integers(heap: &Heap, x: Word, y: Word) -> bool
    requires x { Lies heap.now x }
    requires y { Lies heap.now y }
    ensures { result ≡ are_integers (object_of heap.now x) (object_of heap.now y) }
{
    is_integer(heap, x) && is_integer(heap, y)
}

/// Whether the two are integers, and the second is not 0.
fn can_divide(heap: &Heap, x: Word, y: Word) -> bool
    requires x { Lies heap.now x }
    requires y { Lies heap.now y }
    ensures { result ≡ can_divide by_number (object_of heap.now x) (object_of heap.now y) }
{
    are_integers(heap, x, y) && !is_zero(heap, y)
}

/// Whether the primitive may be called on these arguments.
#[tactic(auto, unfolding(model_prims::specs::Guards::arithmetic_guard))]
pub fn arithmetic_guard(prim: Arithmetic, heap: &Heap, x: Word, y: Word) -> bool
    requires x { Lies heap.now x }
    requires y { Lies heap.now y }
    ensures { result ≡ arithmetic_guard by_number prim (object_of heap.now x) (object_of heap.now y) }
{
    match prim {
        Arithmetic::Plus => are_integers(heap, x, y),
        Arithmetic::Times => are_integers(heap, x, y),
        Arithmetic::Minus => is_integer(heap, x),
        Arithmetic::Nfix => true,
        Arithmetic::Ifix => true,
        Arithmetic::Abs => is_integer(heap, x),
        Arithmetic::Min => are_integers(heap, x, y),
        Arithmetic::Max => are_integers(heap, x, y),
        Arithmetic::Floor => can_divide(heap, x, y),
        Arithmetic::Mod => can_divide(heap, x, y),
        Arithmetic::Truncate => can_divide(heap, x, y),
        Arithmetic::Rem => can_divide(heap, x, y),
        Arithmetic::Expt => is_integer(heap, x) && is_natural(heap, y),
        Arithmetic::Ash => are_integers(heap, x, y),
        Arithmetic::Lognot => is_integer(heap, x),
        Arithmetic::Logand => are_integers(heap, x, y),
        Arithmetic::Logior => are_integers(heap, x, y),
        Arithmetic::Logxor => are_integers(heap, x, y),
    }
}
