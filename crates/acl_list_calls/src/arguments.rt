//! What a call is made on.

ghost use Rattle.std.specs.Prelude.{◌≡◌};
ghost use Rattle.model_prims.specs.Kinds.{by_number, truth_of};
ghost use Rattle.model_prims.specs.Applied.{argument};
ghost use Rattle.model_eval.specs.Variables.{ordinary};
ghost use Rattle.acl_heap.specs.Objects.{object_of, Lies};
ghost use Rattle.acl_keep.specs.Seen.{all_seen};
ghost use Rattle.acl_list_calls.specs.Results.{ValuesLie};

use acl_base::{SymId, Word};
use acl_heap::Heap;
use acl_terms::Shown;

pub(crate) const T: Word = Word::Sym(SymId(0));

pub(crate) const NIL: Word = Word::Sym(SymId(1));

/// The ordinary value of this number; `NIL` where there is none.
#[cycle(counted)]
#[tactic(auto, using(crate::proofs::ArgumentLemmas::no_argument, crate::proofs::ArgumentLemmas::first_argument, crate::proofs::ArgumentLemmas::next_argument, crate::proofs::ArgumentLemmas::other_argument, crate::proofs::ArgumentLemmas::first_lies, crate::proofs::ArgumentLemmas::next_lie, crate::proofs::ArgumentLemmas::other_lie))]
pub fn argument(values: &[Shown], heap: &Heap, index: usize) -> Word
    requires { ValuesLie heap.now values.now }
    ensures lies { Lies heap.now result }
    ensures is { object_of heap.now result ≡ argument by_number (ordinary (all_seen heap.now values.now)) index }
{
    match values.split_first() {
        None => NIL,
        Some((value, others)) => match *value {
            Shown::Object(_) => argument(others, heap, index),
            Shown::Value(w) => {
                if index == 0 {
                    w
                } else {
                    argument(others, heap, index - 1)
                }
            }
        },
    }
}

/// A truth value.
pub(crate) fn truth(heap: &Heap, holds: bool) -> Word
    ensures lies { Lies heap.now result }
    ensures is { object_of heap.now result ≡ truth_of by_number holds }
{
    let _ = heap;
    if holds { T } else { NIL }
}
