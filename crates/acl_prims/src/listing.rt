//! The primitives on pairs and lists.

ghost use Rattle.std.specs.Prelude.{◌≡◌};
ghost use Rattle.acl_heap.specs.Objects.{object_of, Lies, Extends};
ghost use Rattle.model_prims.specs.Kinds.{by_number};
ghost use Rattle.model_prims.specs.Values.{listed, Update};
ghost use Rattle.model_prims.specs.Lists.{size_of};
ghost use Rattle.model_prims.specs.Applied.{bounded};
ghost use Rattle.acl_numbers.specs.Answers.{IsAnswer};

use crate::lists::{assoc, car, cdr, element, len, member};
use crate::making::{appended, revappended, union, updated};
use acl_base::Word;
use acl_heap::{Heap, MAX_WEIGHT, Seen};
use acl_numbers::{PrimStop, answer, natural, number};
use acl_syms::Symbols;
use model_prims::Listing;
use std::alloc::Global;

/// The bytes of a string, else the pairs along the list.
fn size(heap: &Heap, x: Word) -> u64
    requires { Lies heap.now x }
    ensures { result ≡ size_of (object_of heap.now x) }
{
    match heap.look(x) {
        Seen::Text(bytes) => bytes.len() as u64,
        Seen::Integer(_) => 0,
        Seen::Symbol(_) => 0,
        Seen::Pair(_, _) => len(heap, x),
    }
}

#[tactic(auto, using(crate::proofs::Given::given), unfolding(model_prims::specs::Applied::bounded))]
fn update(
    alloc: Global,
    n: u128,
    value: Word,
    list: Word,
    heap: &mut Heap,
    syms: &Symbols,
) -> Result<Word, PrimStop>
    requires value { Lies heap.old value }
    requires list { Lies heap.old list }
    ensures answer { IsAnswer heap.new syms.now.symbols (bounded syms.now (Update n (object_of heap.old value) (object_of heap.old list))) result }
    ensures grows { Extends heap.old heap.new }
{
    if n <= MAX_WEIGHT as u128 {
        answer(updated(alloc, heap, n as u64, value, list))
    } else {
        Err(PrimStop::TooLarge)
    }
}

#[tactic(auto, using(crate::proofs::Given::given), unfolding(model_prims::specs::Applied::bounded, model_prims::specs::Values::listed))]
pub fn listed(
    alloc: Global,
    prim: Listing,
    x: Word,
    y: Word,
    z: Word,
    heap: &mut Heap,
    syms: &Symbols,
) -> Result<Word, PrimStop>
    requires x { Lies heap.old x }
    requires y { Lies heap.old y }
    requires z { Lies heap.old z }
    ensures answer { IsAnswer heap.new syms.now.symbols (bounded syms.now (listed by_number prim (object_of heap.old x) (object_of heap.old y) (object_of heap.old z))) result }
    ensures grows { Extends heap.old heap.new }
{
    match prim {
        Listing::Car => Ok(car(heap, x)),
        Listing::Cdr => Ok(cdr(heap, x)),
        Listing::Cons => answer(heap.cons(x, y)),
        Listing::Len => number(Some(len(heap, x) as i128), heap, syms),
        Listing::Length => number(Some(size(heap, x) as i128), heap, syms),
        Listing::Nth => Ok(element(heap, natural(heap, x), y)),
        Listing::UpdateNth => update(alloc, natural(heap, x), y, z, heap, syms),
        Listing::Append => answer(appended(alloc, heap, x, y)),
        Listing::Revappend => answer(revappended(heap, x, y)),
        Listing::Member => {
            let tail = member(heap, x, y)?;
            Ok(tail)
        }
        Listing::Assoc => {
            let pair = assoc(heap, x, y)?;
            Ok(pair)
        }
        Listing::Union => answer(union(alloc, heap, x, y)),
    }
}
