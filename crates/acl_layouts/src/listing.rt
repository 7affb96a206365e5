//! Lists in a heap, and what their elements meet.

ghost use Rattle.std.specs.Prelude.{◌≡◌, ◌≤◌, true, length, IfOk, is_some, nat_eq};
ghost use Rattle.model_prims.specs.Kinds.{by_number, is_nil};
ghost use Rattle.model_prims.specs.Lists.{len};
ghost use Rattle.model_lists.specs.Types.{meets};
ghost use Rattle.model_lists.specs.Layouts.{every};
ghost use Rattle.model_eval.specs.StobjLayouts.{field_type};
ghost use Rattle.model_expansion.specs.TypeTerms.{accepted_type};
ghost use Rattle.acl_heap.specs.Objects.{object_of, Lies};
ghost use Rattle.acl_new_lists.specs.Begun.{itself};

use acl_base::Word;
use acl_heap::{Heap, Seen};
use acl_meets::meets;
use std::alloc::AllocError;

/// The number of `NIL`.
const NIL: u32 = 1;

pub(crate) fn is_nil(heap: &Heap, x: Word) -> bool
    requires { Lies heap.now x }
    ensures { result ≡ is_nil by_number (object_of heap.now x) }
{
    match heap.look(x) {
        Seen::Integer(_) => false,
        Seen::Symbol(s) => s.0 == NIL,
        Seen::Text(_) => false,
        Seen::Pair(_, _) => false,
    }
}

/// Whether a list has so many pairs.
#[tactic(auto, using(crate::proofs::ListLemmas::longer, crate::proofs::ListLemmas::shorter, crate::proofs::ListLemmas::as_long, crate::proofs::ListLemmas::all_passed))]
pub(crate) fn has_length(heap: &Heap, list: Word, count: u32) -> bool
    requires { Lies heap.now list }
    ensures { result ≡ nat_eq (len (object_of heap.now list)) count }
{
    let mut rest = list;
    for _ in 0..count {
        match heap.look(rest) {
            Seen::Pair(_, next) => rest = next,
            Seen::Integer(_) => return false,
            Seen::Symbol(_) => return false,
            Seen::Text(_) => return false,
        }
    }
    match heap.look(rest) {
        Seen::Pair(_, _) => false,
        Seen::Integer(_) => true,
        Seen::Symbol(_) => true,
        Seen::Text(_) => true,
    }
}

/// Whether it is a true list whose elements meet a type that is accepted.
pub(crate) fn all_meet(heap: &Heap, written: Word, list: Word) -> Result<bool, AllocError>
    requires written { Lies heap.now written }
    requires list { Lies heap.now list }
    requires accepted { is_some (accepted_type (object_of heap.now written)) ≡ true }
    ensures { IfOk result (λ b. b ≡ every by_number (meets by_number (field_type itself (object_of heap.now written))) (object_of heap.now list)) }
{
    let mut rest = list;
    while let Seen::Pair(first, next) = heap.look(rest) {
        if !meets(heap, written, first)? {
            return Ok(false);
        }
        rest = next;
    }
    Ok(is_nil(heap, rest))
}
