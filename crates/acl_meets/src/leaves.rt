//! Whether an object meets a type with no types in it.

ghost use Rattle.std.specs.Prelude.{◌≡◌, ◌≤◌, true, length, IfOk, OnErr, ◌&&◌};
ghost use Rattle.model_objects.specs.Object.{Integer, Symbol, Text};
ghost use Rattle.acl_heap.specs.Objects.{object_of, Lies};
ghost use Rattle.acl_types.specs.Shapes.{seen_leaf, leaf_reach};
ghost use Rattle.model_prims.specs.Kinds.{by_number, same_object, is_integer, is_symbol, is_string, is_pair, is_nil, is_boolean};
ghost use Rattle.model_prims.specs.Lists.{is_member};
ghost use Rattle.model_prims.specs.Numbers.{fix};
ghost use Rattle.model_lists.specs.Types.{is_least, is_greatest};
ghost use Rattle.acl_meets.specs.Tests.{holds, predicate_holds};

use crate::words;
use acl_base::{SymId, Word};
use acl_heap::{Heap, Seen};
use acl_types::Leaf;
use std::alloc::AllocError;

fn is_integer(heap: &Heap, x: Word) -> bool
    requires { Lies heap.now x }
    ensures { result ≡ is_integer (object_of heap.now x) }
{
    match heap.look(x) {
        Seen::Integer(_) => true,
        Seen::Symbol(_) => false,
        Seen::Text(_) => false,
        Seen::Pair(_, _) => false,
    }
}

fn is_symbol(heap: &Heap, x: Word) -> bool
    requires { Lies heap.now x }
    ensures { result ≡ is_symbol (object_of heap.now x) }
{
    match heap.look(x) {
        Seen::Integer(_) => false,
        Seen::Symbol(_) => true,
        Seen::Text(_) => false,
        Seen::Pair(_, _) => false,
    }
}

fn is_string(heap: &Heap, x: Word) -> bool
    requires { Lies heap.now x }
    ensures { result ≡ is_string (object_of heap.now x) }
{
    match heap.look(x) {
        Seen::Integer(_) => false,
        Seen::Symbol(_) => false,
        Seen::Text(_) => true,
        Seen::Pair(_, _) => false,
    }
}

fn is_pair(heap: &Heap, x: Word) -> bool
    requires { Lies heap.now x }
    ensures { result ≡ is_pair (object_of heap.now x) }
{
    match heap.look(x) {
        Seen::Integer(_) => false,
        Seen::Symbol(_) => false,
        Seen::Text(_) => false,
        Seen::Pair(_, _) => true,
    }
}

fn is_nil(heap: &Heap, x: Word) -> bool
    requires { Lies heap.now x }
    ensures { result ≡ is_nil by_number (object_of heap.now x) }
{
    match heap.look(x) {
        Seen::Integer(_) => false,
        Seen::Symbol(s) => s.0 == words::NIL,
        Seen::Text(_) => false,
        Seen::Pair(_, _) => false,
    }
}

fn is_boolean(heap: &Heap, x: Word) -> bool
    requires { Lies heap.now x }
    ensures { result ≡ is_boolean by_number (object_of heap.now x) }
{
    match heap.look(x) {
        Seen::Integer(_) => false,
        Seen::Symbol(s) => s.0 == words::T || s.0 == words::NIL,
        Seen::Text(_) => false,
        Seen::Pair(_, _) => false,
    }
}

/// Whether a predicate that types are written with holds.
fn predicate_holds(heap: &Heap, predicate: SymId, x: Word) -> bool
    requires { Lies heap.now x }
    ensures { result ≡ predicate_holds predicate.0 (object_of heap.now x) }
{
    match predicate.0 {
        words::SYMBOLP => is_symbol(heap, x),
        words::STRINGP => is_string(heap, x),
        words::CONSP => is_pair(heap, x),
        words::ATOM => !is_pair(heap, x),
        words::NULL => is_nil(heap, x),
        words::NOT => is_nil(heap, x),
        words::BOOLEANP => is_boolean(heap, x),
        words::INTEGERP => is_integer(heap, x),
        _ => false,
    }
}

fn is_least(low: Option<i128>, n: i128) -> bool
    ensures { result ≡ is_least low n }
{
    match low {
        None => true,
        Some(low) => n >= low,
    }
}

fn is_greatest(high: Option<i128>, n: i128) -> bool
    ensures { result ≡ is_greatest high n }
{
    match high {
        None => true,
        Some(high) => n <= high,
    }
}

/// Whether it is an integer from an end to an end, where there are these.
fn is_between(heap: &Heap, low: Option<i128>, high: Option<i128>, x: Word) -> bool
    requires { Lies heap.now x }
    ensures { result ≡ (is_integer (object_of heap.now x) && (is_least low (fix (object_of heap.now x)) && is_greatest high (fix (object_of heap.now x)))) }
{
    match heap.look(x) {
        Seen::Integer(n) => is_least(low, n) & is_greatest(high, n),
        Seen::Symbol(_) => false,
        Seen::Text(_) => false,
        Seen::Pair(_, _) => false,
    }
}

fn is_number(heap: &Heap, n: i128, x: Word) -> bool
    requires { Lies heap.now x }
    ensures { result ≡ same_object by_number (Integer n) (object_of heap.now x) }
{
    match heap.look(x) {
        Seen::Integer(m) => n == m,
        Seen::Symbol(_) => false,
        Seen::Text(_) => false,
        Seen::Pair(_, _) => false,
    }
}

fn is_the_symbol(heap: &Heap, s: SymId, x: Word) -> bool
    requires { Lies heap.now x }
    ensures { result ≡ same_object by_number (Symbol s.0) (object_of heap.now x) }
{
    match heap.look(x) {
        Seen::Integer(_) => false,
        Seen::Symbol(t) => s.0 == t.0,
        Seen::Text(_) => false,
        Seen::Pair(_, _) => false,
    }
}

fn is_text(heap: &Heap, bytes: &[u8], x: Word) -> bool
    requires { Lies heap.now x }
    ensures { result ≡ same_object by_number (Text bytes.now) (object_of heap.now x) }
{
    match heap.look(x) {
        Seen::Integer(_) => false,
        Seen::Symbol(_) => false,
        Seen::Text(other) => bytes == other,
        Seen::Pair(_, _) => false,
    }
}

fn is_same_pair(heap: &Heap, x: Word, y: Word) -> Result<bool, AllocError>
    requires left { Lies heap.now x }
    requires right { Lies heap.now y }
    ensures { IfOk result (λ b. b ≡ same_object by_number (object_of heap.now x) (object_of heap.now y)) }
{
    let equal = heap.equal(x, y)?;
    Ok(equal)
}

/// Whether the two are the same object. Only a pair takes memory.
fn same(heap: &Heap, x: Word, y: Word) -> Result<bool, AllocError>
    requires left { Lies heap.now x }
    requires right { Lies heap.now y }
    ensures is { IfOk result (λ b. b ≡ same_object by_number (object_of heap.now x) (object_of heap.now y)) }
    ensures err { OnErr result (is_pair (object_of heap.now x) ≡ true) }
{
    match heap.look(x) {
        Seen::Integer(n) => Ok(is_number(heap, n, y)),
        Seen::Symbol(s) => Ok(is_the_symbol(heap, s, y)),
        Seen::Text(bytes) => Ok(is_text(heap, bytes, y)),
        Seen::Pair(_, _) => is_same_pair(heap, x, y),
    }
}

/// Whether it is an element of a list.
fn is_member(heap: &Heap, x: Word, list: Word) -> Result<bool, AllocError>
    requires object { Lies heap.now x }
    requires list { Lies heap.now list }
    ensures is { IfOk result (λ b. b ≡ is_member by_number (object_of heap.now x) (object_of heap.now list)) }
    ensures err { OnErr result (is_pair (object_of heap.now x) ≡ true) }
{
    let mut rest = list;
    while let Seen::Pair(first, next) = heap.look(rest) {
        if same(heap, x, first)? {
            return Ok(true);
        }
        rest = next;
    }
    Ok(false)
}

/// Whether an object meets a type with no types in it.
#[tactic(auto, using(crate::proofs::TestLemmas::range_holds, crate::proofs::TestLemmas::leaf_holds))]
pub fn meets_leaf(heap: &Heap, leaf: Leaf, x: Word) -> Result<bool, AllocError>
    requires object { Lies heap.now x }
    requires leaf { leaf_reach leaf ≤ length heap.now }
    ensures is { IfOk result (λ b. b ≡ holds (seen_leaf 0 heap.now leaf) (object_of heap.now x)) }
    ensures err { OnErr result (is_pair (object_of heap.now x) ≡ true) }
{
    match leaf {
        Leaf::Always => Ok(true),
        Leaf::Never => Ok(false),
        Leaf::Between(low, high) => Ok(is_between(heap, low, high, x)),
        Leaf::Meets(predicate) => Ok(predicate_holds(heap, predicate, x)),
        Leaf::Among(list) => {
            let among = is_member(heap, x, list)?;
            Ok(among)
        }
    }
}
