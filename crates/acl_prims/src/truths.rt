//! The primitives that test.

ghost use Rattle.std.specs.Prelude.{◌≡◌, IfOk};
ghost use Rattle.acl_heap.specs.Objects.{object_of, Lies, Denotes};
ghost use Rattle.model_prims.specs.Kinds.{by_number, truth_of};
ghost use Rattle.model_prims.specs.Values.{recognized, related};

use crate::kinds::{is_boolean, is_nil, is_pair, is_string, is_symbol};
use crate::lists::{is_alist, is_true_list, same};
use crate::{NIL, TRUTH};
use acl_base::Word;
use acl_heap::Heap;
use acl_numbers::{below, is_integer, is_natural, is_positive, is_zero};
use model_prims::{Recognizer, Relation};
use std::alloc::AllocError;

pub fn truth(_heap: &Heap, holds: bool) -> Word
    ensures { Denotes _heap.now result (truth_of by_number holds) }
{
    if holds { TRUTH } else { NIL }
}

#[tactic(auto, unfolding(model_prims::specs::Values::recognized))]
pub fn recognized(prim: Recognizer, heap: &Heap, x: Word) -> bool
    requires { Lies heap.now x }
    ensures { result ≡ recognized by_number prim (object_of heap.now x) }
{
    match prim {
        Recognizer::Consp => is_pair(heap, x),
        Recognizer::Atom => !is_pair(heap, x),
        Recognizer::Null => is_nil(heap, x),
        Recognizer::Not => is_nil(heap, x),
        Recognizer::Symbolp => is_symbol(heap, x),
        Recognizer::Stringp => is_string(heap, x),
        Recognizer::Integerp => is_integer(heap, x),
        Recognizer::Natp => is_natural(heap, x),
        Recognizer::Posp => is_positive(heap, x),
        Recognizer::Booleanp => is_boolean(heap, x),
        Recognizer::TrueListp => is_true_list(heap, x),
        Recognizer::Alistp => is_alist(heap, x),
        Recognizer::Endp => !is_pair(heap, x),
        Recognizer::Zerop => is_zero(heap, x),
        Recognizer::Zp => !is_positive(heap, x),
        Recognizer::Zip => !is_integer(heap, x) || is_zero(heap, x),
    }
}

#[tactic(auto, unfolding(model_prims::specs::Values::related))]
pub fn related(prim: Relation, heap: &Heap, x: Word, y: Word) -> Result<bool, AllocError>
    requires x { Lies heap.now x }
    requires y { Lies heap.now y }
    ensures { IfOk result (λ b. b ≡ related by_number prim (object_of heap.now x) (object_of heap.now y)) }
{
    match prim {
        Relation::Eq => same(heap, x, y),
        Relation::Eql => same(heap, x, y),
        Relation::Equal => same(heap, x, y),
        Relation::Below => Ok(below(heap, x, y)),
        Relation::Same => same(heap, x, y),
        Relation::Different => {
            let equal = same(heap, x, y)?;
            Ok(!equal)
        }
        Relation::Implies => Ok(is_nil(heap, x) || !is_nil(heap, y)),
        Relation::Iff => Ok(is_nil(heap, x) == is_nil(heap, y)),
    }
}
