//! Lists in a heap, and what is left of them.

ghost use Rattle.std.specs.Prelude.{◌≡◌, []};
ghost use Rattle.model_objects.specs.Object.{Object};
ghost use Rattle.model_prims.specs.Kinds.{is_pair};
ghost use Rattle.model_expansion.specs.Forms.{elements, is};
ghost use Rattle.model_expansion.specs.Layers.{is_none};
ghost use Rattle.acl_heap.specs.Objects.{Objects, object_of, Lies};
ghost use Rattle.acl_layers.specs.Lists.{seen_left, last_item, LeftLies, Takes, SeenOne, SeenTwo, SeenThree, SeenFour, SeenList};

use crate::layer::Left;
use crate::words::{self, NIL_WORD};
use acl_base::Word;
use acl_heap::{Heap, Seen};
use acl_types::is_true_list;

/// Whether it is the symbol of this number.
pub fn is_symbol(heap: &Heap, x: Word, number: u32) -> bool
    requires { Lies heap.now x }
    ensures { result ≡ is number (object_of heap.now x) }
{
    match heap.look(x) {
        Seen::Symbol(s) => s.0 == number,
        Seen::Integer(_) => false,
        Seen::Text(_) => false,
        Seen::Pair(_, _) => false,
    }
}

pub fn is_pair(heap: &Heap, x: Word) -> bool
    requires { Lies heap.now x }
    ensures { result ≡ is_pair (object_of heap.now x) }
{
    match heap.look(x) {
        Seen::Pair(_, _) => true,
        Seen::Integer(_) => false,
        Seen::Symbol(_) => false,
        Seen::Text(_) => false,
    }
}

fn last_of(left: Left) -> Option<(Word, Left)>
    ensures { (h : Objects) → LeftLies h left → Takes h (last_item h left.last) result }
{
    match left.last {
        Some(last) => Some((
            last,
            Left {
                list: NIL_WORD,
                last: None,
            },
        )),
        None => None,
    }
}

/// The first of what is left, and what is left then.
pub fn take(heap: &Heap, left: Left) -> Option<(Word, Left)>
    requires { LeftLies heap.now left }
    ensures { Takes heap.now (seen_left heap.now left) result }
{
    match heap.look(left.list) {
        Seen::Pair(first, list) => Some((
            first,
            Left {
                list,
                last: left.last,
            },
        )),
        Seen::Integer(_) => last_of(left),
        Seen::Symbol(_) => last_of(left),
        Seen::Text(_) => last_of(left),
    }
}

/// Whether nothing is left.
pub fn is_end(heap: &Heap, left: Left) -> bool
    requires { LeftLies heap.now left }
    ensures { result ≡ is_none [] (seen_left heap.now left) }
{
    take(heap, left).is_none()
}

/// The one that is left, where it is one.
pub fn one(heap: &Heap, left: Left) -> Option<Word>
    requires { LeftLies heap.now left }
    ensures { SeenOne heap.now result (seen_left heap.now left) }
{
    let (a, left) = take(heap, left)?;
    if is_end(heap, left) { Some(a) } else { None }
}

/// The two that are left, where they are two.
pub fn two(heap: &Heap, left: Left) -> Option<(Word, Word)>
    requires { LeftLies heap.now left }
    ensures { SeenTwo heap.now result (seen_left heap.now left) }
{
    let (a, left) = take(heap, left)?;
    let b = one(heap, left)?;
    Some((a, b))
}

/// The three that are left, where they are three.
pub fn three(heap: &Heap, left: Left) -> Option<(Word, Word, Word)>
    requires { LeftLies heap.now left }
    ensures { SeenThree heap.now result (seen_left heap.now left) }
{
    let (a, left) = take(heap, left)?;
    let (b, c) = two(heap, left)?;
    Some((a, b, c))
}

/// The four that are left, where they are four.
pub fn four(heap: &Heap, left: Left) -> Option<(Word, Word, Word, Word)>
    requires { LeftLies heap.now left }
    ensures { SeenFour heap.now result (seen_left heap.now left) }
{
    let (a, left) = take(heap, left)?;
    let (b, c, d) = three(heap, left)?;
    Some((a, b, c, d))
}

/// What is left of a true list. None where it is none.
#[tactic(auto, using(crate::proofs::ListLemmas::true_list, crate::proofs::ListLemmas::no_list))]
pub fn elements(heap: &Heap, list: Word) -> Option<Left>
    requires { Lies heap.now list }
    ensures { SeenList heap.now result (elements (object_of heap.now list)) }
{
    if is_true_list(heap, list) {
        Some(Left { list, last: None })
    } else {
        None
    }
}
