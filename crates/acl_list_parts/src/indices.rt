//! Indices among objects.

ghost use Rattle.std.specs.Prelude.{◌≡◌, ◌≤◌, ◌^◌, IfSome, IfNone};
ghost use Rattle.model_prims.specs.Numbers.{natural_of};
ghost use Rattle.model_lists.specs.Effects.{is_index, is_up_to};
ghost use Rattle.acl_heap.specs.Objects.{object_of, Lies};

use acl_base::Word;
use acl_heap::{Heap, Seen};

/// The number that an object counts as, where it has 64 bits.
pub fn natural(heap: &Heap, w: Word) -> Option<u64>
    requires { Lies heap.now w }
    ensures some { IfSome result (λ n. n ≡ natural_of (object_of heap.now w)) }
    ensures none { IfNone result (2 ^ 64 ≤ natural_of (object_of heap.now w)) }
{
    let n = acl_numbers::natural(heap, w);
    match u64::try_from(n) {
        Ok(small) => Some(small),
        Err(_) => None,
    }
}

/// Whether it is a natural number below a length.
#[tactic(auto, using(crate::proofs::IndexLemmas::index_tells))]
pub fn is_index(heap: &Heap, w: Word, count: u64) -> bool
    requires { Lies heap.now w }
    ensures { result ≡ is_index (object_of heap.now w) count }
{
    match heap.look(w) {
        Seen::Integer(n) => (n >= 0) & (n < count as i128),
        Seen::Symbol(_) => false,
        Seen::Text(_) => false,
        Seen::Pair(_, _) => false,
    }
}

/// Whether it is a natural number up to a bound.
#[tactic(auto, using(crate::proofs::IndexLemmas::bound_tells))]
pub fn is_up_to(heap: &Heap, w: Word, most: u64) -> bool
    requires { Lies heap.now w }
    ensures { result ≡ is_up_to most (object_of heap.now w) }
{
    match heap.look(w) {
        Seen::Integer(n) => (n >= 0) & (n <= most as i128),
        Seen::Symbol(_) => false,
        Seen::Text(_) => false,
        Seen::Pair(_, _) => false,
    }
}
