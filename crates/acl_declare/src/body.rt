//! A body behind declarations.

ghost use Rattle.std.specs.Prelude.{◌≡◌, ◌≤◌, ◌++◌, ◌∷◌, [], length, max, Some, None, IfOk, OnOk, if◌then◌else◌};
ghost use Rattle.model_objects.specs.Object.{Pair};
ghost use Rattle.model_events.specs.Declarations.{declared_items, items_and_body};
ghost use Rattle.acl_heap.specs.Objects.{object_of, Lies, reach};
ghost use Rattle.acl_layers.specs.Lists.{items_along};
ghost use Rattle.acl_declare.specs.Said.{words_at, words_reach};
ghost use Rattle.acl_declare.specs.Bodies.{SeenBody, with_found};

use crate::words;
use acl_base::Word;
use acl_heap::{Heap, Seen};
use acl_layers::{is_pair, is_symbol, is_true_list};
use sqlite_items::Items;
use std::alloc::{AllocError, Global};

#[tactic(auto, using(crate::proofs::BodyLemmas::word_pushed, crate::proofs::BodyLemmas::reach_pushed))]
fn push(_heap: &Heap, items: &mut Items<Word>, item: Word) -> Result<(), AllocError>
    ensures at { OnOk result (words_at _heap.now items.new ≡ words_at _heap.now items.old ++ object_of _heap.now item ∷ []) }
    ensures reach { OnOk result (words_reach items.new ≡ max (words_reach items.old) (reach item)) }
{
    items.push(item)?;
    Ok(())
}

/// Puts what stands along a list last.
#[tactic(auto, using(crate::proofs::BodyLemmas::along_more, crate::proofs::BodyLemmas::along_end))]
fn push_items(heap: &Heap, items: &mut Items<Word>, list: Word) -> Result<(), AllocError>
    requires list { Lies heap.now list }
    requires items { words_reach items.old ≤ length heap.now }
    ensures at { OnOk result (words_at heap.now items.new ≡ words_at heap.now items.old ++ items_along (object_of heap.now list)) }
    ensures reach { OnOk result (words_reach items.new ≤ length heap.now) }
{
    let mut at = list;
    'items: while let Seen::Pair(first, next) = heap.look(at) {
        push(heap, items, first)?;
        at = next;
    }
    Ok(())
}

/// The items of a list with this head. False where it is no declaration.
#[tactic(auto, using(crate::proofs::BodyLemmas::no_declaration, crate::proofs::BodyLemmas::no_true_list, crate::proofs::BodyLemmas::declaration))]
fn declaration(
    heap: &Heap,
    items: &mut Items<Word>,
    head: Word,
    rest: Word,
) -> Result<bool, AllocError>
    requires head { Lies heap.now head }
    requires rest { Lies heap.now rest }
    requires items { words_reach items.old ≤ length heap.now }
    ensures is { IfOk result (λ b. with_found (words_at heap.now items.old) (declared_items (Pair (object_of heap.now head) (object_of heap.now rest))) ≡ (if b then Some (words_at heap.now items.new) else None)) }
    ensures reach { OnOk result (words_reach items.new ≤ length heap.now) }
{
    if !is_symbol(heap, head, words::DECLARE) {
        return Ok(false);
    }
    if !is_true_list(heap, rest) {
        return Ok(false);
    }
    push_items(heap, items, rest)?;
    Ok(true)
}

/// The items of a declaration; a string has none. False where it is neither.
#[tactic(auto, using(crate::proofs::BodyLemmas::of_pair, crate::proofs::BodyLemmas::of_text, crate::proofs::BodyLemmas::of_symbol, crate::proofs::BodyLemmas::of_integer))]
fn add_items(heap: &Heap, items: &mut Items<Word>, x: Word) -> Result<bool, AllocError>
    requires x { Lies heap.now x }
    requires items { words_reach items.old ≤ length heap.now }
    ensures is { IfOk result (λ b. with_found (words_at heap.now items.old) (declared_items (object_of heap.now x)) ≡ (if b then Some (words_at heap.now items.new) else None)) }
    ensures reach { OnOk result (words_reach items.new ≤ length heap.now) }
{
    match heap.look(x) {
        Seen::Pair(head, rest) => {
            let added = declaration(heap, items, head, rest)?;
            Ok(added)
        }
        Seen::Text(_) => Ok(true),
        Seen::Symbol(_) => Ok(false),
        Seen::Integer(_) => Ok(false),
    }
}

/// The items of all declarations, and the body, which comes last. None where there is anything else.
#[tactic(auto, using(crate::proofs::BodyLemmas::body_last, crate::proofs::BodyLemmas::body_more, crate::proofs::BodyLemmas::body_wrong, crate::proofs::BodyLemmas::body_none, crate::proofs::BodyLemmas::start))]
pub fn items_and_body(
    alloc: Global,
    heap: &Heap,
    list: Word,
) -> Result<Option<(Items<Word>, Word)>, AllocError>
    requires { Lies heap.now list }
    ensures { IfOk result (λ r. SeenBody heap.now r (items_and_body (items_along (object_of heap.now list)))) }
{
    let mut items = Items::new(alloc);
    let mut at = list;
    'forms: while let Seen::Pair(first, rest) = heap.look(at) {
        if !is_pair(heap, rest) {
            return Ok(Some((items, first)));
        }
        if !add_items(heap, &mut items, first)? {
            return Ok(None);
        }
        at = rest;
    }
    Ok(None)
}
