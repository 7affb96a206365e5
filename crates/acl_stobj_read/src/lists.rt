//! Lists in a heap.

ghost use Rattle.std.specs.Prelude.{◌≡◌, ◌≤◌, length};
ghost use Rattle.model_expansion.specs.Forms.{elements, symbol};
ghost use Rattle.acl_heap.specs.Objects.{object_of, Lies};
ghost use Rattle.acl_terms.specs.Signatures.{seen_name};
ghost use Rattle.acl_stobj_read.specs.Lists.{SeenListed};

use acl_base::{SymId, Word};
use acl_heap::{Heap, Seen};
use acl_layers::{elements, is_end, take};

/// The symbol that it is.
pub fn symbol(heap: &Heap, x: Word) -> Option<SymId>
    requires { Lies heap.now x }
    ensures { symbol (object_of heap.now x) ≡ seen_name result }
{
    match heap.look(x) {
        Seen::Symbol(s) => Some(s),
        Seen::Integer(_) => None,
        Seen::Text(_) => None,
        Seen::Pair(_, _) => None,
    }
}

/// The elements of a list of two or three.
#[tactic(auto, using(crate::proofs::ListLemmas::no_list, crate::proofs::ListLemmas::empty, crate::proofs::ListLemmas::one, crate::proofs::ListLemmas::two, crate::proofs::ListLemmas::more, crate::proofs::ListLemmas::three))]
pub fn two_or_three(heap: &Heap, x: Word) -> Option<(Word, Word, Option<Word>)>
    requires { Lies heap.now x }
    ensures { SeenListed heap.now result (elements (object_of heap.now x)) }
{
    let left = elements(heap, x)?;
    let (first, left) = take(heap, left)?;
    let (second, left) = take(heap, left)?;
    match take(heap, left) {
        None => Some((first, second, None)),
        Some((third, left)) => if is_end(heap, left) {
            Some((first, second, Some(third)))
        } else {
            None
        },
    }
}
