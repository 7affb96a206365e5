//! What an object is as a type, one level deep.

ghost use Rattle.std.specs.Prelude.{◌≡◌, ℕ, ◌+◌, ◌≤◌, ◌<◌, ◌-◌, ◌^◌, length, pos, neg_ℤ, ◌+ℤ◌, ◌≤ℤ◌, Some, None, IfSome, IsTrue, if◌then◌else◌};
ghost use Rattle.model_objects.specs.Object.{Object, Integer, Symbol, Pair, weight};
ghost use Rattle.model_prims.specs.Kinds.{by_number};
ghost use Rattle.model_prims.specs.Lists.{is_true_list};
ghost use Rattle.model_lists.specs.Types.{OneOf, word_type, bound_of, bits_of, range_of, unsigned_type, signed_type, only_element, headed_type, reading, denied, is_nil_word};
ghost use Rattle.acl_heap.specs.Objects.{object_of, Lies};
ghost use Rattle.acl_types.specs.Shapes.{type_in, joined_in, tested, none_of, seen_shape, seen_step, shape_reach, step_reach, StepShrinks, SeenOnly};

use crate::shape::{Join, Leaf, Shape, Step};
use crate::words;
use acl_base::{SymId, Word};
use acl_heap::{Heap, Seen};

fn meets(number: u32) -> Shape
    ensures { result ≡ Shape.Leaf (Leaf.Meets (record { 0 = number })) }
{
    Shape::Leaf(Leaf::Meets(SymId(number)))
}

fn between(low: Option<i128>, high: Option<i128>) -> Shape
    ensures { result ≡ Shape.Leaf (Leaf.Between low high) }
{
    Shape::Leaf(Leaf::Between(low, high))
}

/// A type that is one word.
fn word_shape(_heap: &Heap, _name: SymId, s: SymId) -> Shape
    ensures is { seen_shape _name.0 _heap.now result ≡ tested _name.0 (word_type s.0) }
    ensures reach { shape_reach result ≡ 0 }
{
    match s.0 {
        words::T => Shape::Leaf(Leaf::Always),
        words::INTEGER => between(None, None),
        words::SIGNED_BYTE => between(None, None),
        words::UNSIGNED_BYTE => between(Some(0), None),
        words::BIT => between(Some(0), Some(1)),
        words::SYMBOL => meets(words::SYMBOLP),
        words::STRING => meets(words::STRINGP),
        words::CONS => meets(words::CONSP),
        words::ATOM => meets(words::ATOM),
        words::NULL => meets(words::NULL),
        words::BOOLEAN => meets(words::BOOLEANP),
        _ => Shape::Bad,
    }
}

fn is_nil(heap: &Heap, x: Word) -> bool
    requires { Lies heap.now x }
    ensures is { result ≡ is_nil_word (object_of heap.now x) }
    ensures nil { IsTrue result → object_of heap.now x ≡ Symbol 1 }
{
    match heap.look(x) {
        Seen::Symbol(s) => s.0 == words::NIL,
        Seen::Integer(_) => false,
        Seen::Text(_) => false,
        Seen::Pair(_, _) => false,
    }
}

/// The only element of a list.
fn only(heap: &Heap, d: Word) -> Option<Word>
    requires { Lies heap.now d }
    ensures { SeenOnly heap.now result (object_of heap.now d) }
{
    match heap.look(d) {
        Seen::Pair(a, rest) => if is_nil(heap, rest) { Some(a) } else { None },
        Seen::Integer(_) => None,
        Seen::Symbol(_) => None,
        Seen::Text(_) => None,
    }
}

/// An end of a range, or none where it is left open.
fn bound(heap: &Heap, x: Word) -> Option<Option<i128>>
    requires { Lies heap.now x }
    ensures { result ≡ bound_of (object_of heap.now x) }
{
    match heap.look(x) {
        Seen::Integer(n) => Some(Some(n)),
        Seen::Symbol(s) => if s.0 == words::STAR { Some(None) } else { None },
        Seen::Text(_) => None,
        Seen::Pair(_, _) => None,
    }
}

#[tactic(auto, using(crate::proofs::ShapeLemmas::range_many, crate::proofs::ShapeLemmas::range_low, crate::proofs::ShapeLemmas::range_high, crate::proofs::ShapeLemmas::range_is))]
fn ends(heap: &Heap, _name: SymId, low: Word, rest: Word) -> Shape
    requires low { Lies heap.now low }
    requires rest { Lies heap.now rest }
    ensures is { seen_shape _name.0 heap.now result ≡ tested _name.0 (range_of (Pair (object_of heap.now low) (object_of heap.now rest))) }
    ensures reach { shape_reach result ≡ 0 }
{
    let Some(high) = only(heap, rest) else {
        return Shape::Bad;
    };
    let Some(low) = bound(heap, low) else {
        return Shape::Bad;
    };
    match bound(heap, high) {
        None => Shape::Bad,
        Some(high) => between(low, high),
    }
}

/// Integers of a range.
fn range(heap: &Heap, name: SymId, d: Word) -> Shape
    requires { Lies heap.now d }
    ensures is { seen_shape name.0 heap.now result ≡ tested name.0 (range_of (object_of heap.now d)) }
    ensures reach { shape_reach result ≡ 0 }
{
    match heap.look(d) {
        Seen::Pair(low, rest) => ends(heap, name, low, rest),
        Seen::Integer(_) => Shape::Bad,
        Seen::Symbol(_) => Shape::Bad,
        Seen::Text(_) => Shape::Bad,
    }
}

#[tactic(auto, using(crate::proofs::ShapeLemmas::few_bits, crate::proofs::ShapeLemmas::many_bits, crate::proofs::ShapeLemmas::so_many_bits))]
fn count(n: i128, most: u32) -> Option<u32>
    ensures is { result ≡ bits_of most (Some (Integer n)) }
    ensures within { IfSome result (λ k. (1 ≤ k) × (k ≤ most)) }
{
    if n < 1 {
        return None;
    }
    if n > most as i128 {
        return None;
    }
    Some(n as u32)
}

/// The number of bits of a type of integers.
#[tactic(auto, using(crate::proofs::ShapeLemmas::no_bits, crate::proofs::ShapeLemmas::only_is))]
fn bits(heap: &Heap, d: Word, most: u32) -> Option<u32>
    requires { Lies heap.now d }
    ensures is { result ≡ bits_of most (only_element (object_of heap.now d)) }
    ensures within { IfSome result (λ k. (1 ≤ k) × (k ≤ most)) }
{
    match only(heap, d) {
        None => None,
        Some(x) => match heap.look(x) {
            Seen::Integer(n) => count(n, most),
            Seen::Symbol(_) => None,
            Seen::Text(_) => None,
            Seen::Pair(_, _) => None,
        },
    }
}

/// The greatest integer of so many bits.
#[tactic(auto, using(crate::proofs::ShapeLemmas::power_fits, crate::proofs::ShapeLemmas::ones_fit))]
fn ones(count: u32) -> i128
    requires { count < 128 }
    ensures { result ≡ pos (2 ^ count - 1) }
{
    ((1_u128 << count) - 1) as i128
}

#[tactic(auto, using(crate::proofs::ShapeLemmas::unsigned_none, crate::proofs::ShapeLemmas::unsigned_some))]
fn unsigned(heap: &Heap, _name: SymId, d: Word) -> Shape
    requires { Lies heap.now d }
    ensures is { seen_shape _name.0 heap.now result ≡ tested _name.0 (unsigned_type (bits_of 127 (only_element (object_of heap.now d)))) }
    ensures reach { shape_reach result ≡ 0 }
{
    match bits(heap, d, 127) {
        None => Shape::Bad,
        Some(count) => between(Some(0), Some(ones(count))),
    }
}

fn least(most: i128) -> i128
    requires { (pos 0) ≤ℤ most }
    ensures { result ≡ neg_ℤ (most +ℤ pos 1) }
{
    -most - 1
}

#[tactic(auto, using(crate::proofs::ShapeLemmas::signed_none, crate::proofs::ShapeLemmas::signed_some))]
fn signed(heap: &Heap, _name: SymId, d: Word) -> Shape
    requires { Lies heap.now d }
    ensures is { seen_shape _name.0 heap.now result ≡ tested _name.0 (signed_type (bits_of 128 (only_element (object_of heap.now d)))) }
    ensures reach { shape_reach result ≡ 0 }
{
    match bits(heap, d, 128) {
        None => Shape::Bad,
        Some(count) => {
            let most = ones(count - 1);
            between(Some(least(most)), Some(most))
        }
    }
}

/// Whether it is a list that ends in `NIL`.
pub fn is_true_list(heap: &Heap, list: Word) -> bool
    requires { Lies heap.now list }
    ensures { result ≡ is_true_list by_number (object_of heap.now list) }
{
    let mut rest = list;
    while let Seen::Pair(_, next) = heap.look(rest) {
        rest = next;
    }
    is_nil(heap, rest)
}

fn members(heap: &Heap, _name: SymId, d: Word) -> Shape
    requires { Lies heap.now d }
    ensures is { seen_shape _name.0 heap.now result ≡ tested _name.0 (if is_true_list by_number (object_of heap.now d) then Some (OneOf (object_of heap.now d)) else None) }
    ensures reach { shape_reach result ≤ length heap.now }
{
    if is_true_list(heap, d) {
        Shape::Leaf(Leaf::Among(d))
    } else {
        Shape::Bad
    }
}

/// What a type is not.
#[tactic(auto, using(crate::proofs::ShapeLemmas::not_is, crate::proofs::ShapeLemmas::not_none))]
fn other(heap: &Heap, _name: SymId, d: Word) -> Shape
    requires { Lies heap.now d }
    ensures is { seen_shape _name.0 heap.now result ≡ tested _name.0 (denied (only_element (object_of heap.now d)) (joined_in Join.Either (object_of heap.now d))) }
    ensures reach { shape_reach result ≤ length heap.now }
{
    match only(heap, d) {
        None => Shape::Bad,
        Some(a) => Shape::Other(a),
    }
}

fn none_of(join: Join) -> Leaf
    ensures { result ≡ none_of join }
{
    match join {
        Join::Either => Leaf::Never,
        Join::Both => Leaf::Always,
    }
}

/// A list of which a first type is known.
#[tactic(auto, using(crate::proofs::ShapeLemmas::joined_last, crate::proofs::ShapeLemmas::joined_more, crate::proofs::ShapeLemmas::bad_integer, crate::proofs::ShapeLemmas::bad_text, crate::proofs::ShapeLemmas::bad_symbol))]
fn listed_from(heap: &Heap, _name: SymId, join: Join, a: Word, rest: Word) -> Step
    requires first { Lies heap.now a }
    requires rest { Lies heap.now rest }
    ensures is { seen_step _name.0 heap.now result ≡ tested _name.0 (joined_in join (Pair (object_of heap.now a) (object_of heap.now rest))) }
    ensures reach { step_reach result ≤ length heap.now }
    ensures shrinks { StepShrinks heap.now result (weight (object_of heap.now a) + 1) }
{
    match heap.look(rest) {
        Seen::Pair(_, _) => Step::Stays(Shape::Joined(join, a, rest)),
        Seen::Symbol(s) => if s.0 == words::NIL {
            Step::Goes(a)
        } else {
            Step::Stays(Shape::Bad)
        },
        Seen::Integer(_) => Step::Stays(Shape::Bad),
        Seen::Text(_) => Step::Stays(Shape::Bad),
    }
}

/// A list of types, of which any is to be met, or all.
#[tactic(auto, using(crate::proofs::ShapeLemmas::joined_none, crate::proofs::ShapeLemmas::joined_symbol, crate::proofs::ShapeLemmas::joined_integer, crate::proofs::ShapeLemmas::joined_text))]
fn listed(heap: &Heap, name: SymId, join: Join, d: Word) -> Step
    requires { Lies heap.now d }
    ensures is { seen_step name.0 heap.now result ≡ tested name.0 (joined_in join (object_of heap.now d)) }
    ensures reach { step_reach result ≤ length heap.now }
    ensures shrinks { StepShrinks heap.now result (weight (object_of heap.now d)) }
{
    match heap.look(d) {
        Seen::Pair(a, rest) => listed_from(heap, name, join, a, rest),
        Seen::Symbol(s) => if s.0 == words::NIL {
            Step::Stays(Shape::Leaf(none_of(join)))
        } else {
            Step::Stays(Shape::Bad)
        },
        Seen::Integer(_) => Step::Stays(Shape::Bad),
        Seen::Text(_) => Step::Stays(Shape::Bad),
    }
}

/// A list with this head.
fn headed(heap: &Heap, name: SymId, s: SymId, d: Word) -> Step
    requires { Lies heap.now d }
    ensures is { seen_step name.0 heap.now result ≡ tested name.0 (headed_type (λ (x : Object ℕ). x) s.0 (object_of heap.now d) (reading (λ (x : Object ℕ). x) (object_of heap.now d))) }
    ensures reach { step_reach result ≤ length heap.now }
    ensures shrinks { StepShrinks heap.now result (weight (object_of heap.now d)) }
{
    match s.0 {
        words::OR => listed(heap, name, Join::Either, d),
        words::AND => listed(heap, name, Join::Both, d),
        words::NOT => Step::Stays(other(heap, name, d)),
        words::INTEGER => Step::Stays(range(heap, name, d)),
        words::UNSIGNED_BYTE => Step::Stays(unsigned(heap, name, d)),
        words::SIGNED_BYTE => Step::Stays(signed(heap, name, d)),
        words::MEMBER => Step::Stays(members(heap, name, d)),
        _ => Step::Stays(Shape::Bad),
    }
}

fn pair_step(heap: &Heap, name: SymId, a: Word, d: Word) -> Step
    requires head { Lies heap.now a }
    requires rest { Lies heap.now d }
    ensures is { seen_step name.0 heap.now result ≡ tested name.0 (type_in (Pair (object_of heap.now a) (object_of heap.now d))) }
    ensures reach { step_reach result ≤ length heap.now }
    ensures shrinks { StepShrinks heap.now result (weight (object_of heap.now d)) }
{
    match heap.look(a) {
        Seen::Symbol(s) => headed(heap, name, s, d),
        Seen::Integer(_) => Step::Stays(Shape::Bad),
        Seen::Text(_) => Step::Stays(Shape::Bad),
        Seen::Pair(_, _) => Step::Stays(Shape::Bad),
    }
}

/// One step towards the shape of a type.
fn step(heap: &Heap, name: SymId, w: Word) -> Step
    requires { Lies heap.now w }
    ensures is { seen_step name.0 heap.now result ≡ tested name.0 (type_in (object_of heap.now w)) }
    ensures reach { step_reach result ≤ length heap.now }
    ensures shrinks { StepShrinks heap.now result (weight (object_of heap.now w)) }
{
    match heap.look(w) {
        Seen::Pair(a, d) => pair_step(heap, name, a, d),
        Seen::Symbol(s) => Step::Stays(word_shape(heap, name, s)),
        Seen::Integer(_) => Step::Stays(Shape::Bad),
        Seen::Text(_) => Step::Stays(Shape::Bad),
    }
}

/// The shape of a type. Heads with one type alone are passed by a loop.
pub fn shape_of(heap: &Heap, name: SymId, w: Word) -> Shape
    requires { Lies heap.now w }
    ensures is { seen_shape name.0 heap.now result ≡ tested name.0 (type_in (object_of heap.now w)) }
    ensures reach { shape_reach result ≤ length heap.now }
{
    let mut at = w;
    'heads: loop {
        match step(heap, name, at) {
            Step::Stays(shape) => return shape,
            Step::Goes(next) => at = next,
        }
    }
}

/// The shape of a list of types.
pub fn list_shape(heap: &Heap, name: SymId, join: Join, d: Word) -> Shape
    requires { Lies heap.now d }
    ensures is { seen_shape name.0 heap.now result ≡ tested name.0 (joined_in join (object_of heap.now d)) }
    ensures reach { shape_reach result ≤ length heap.now }
{
    match listed(heap, name, join, d) {
        Step::Stays(shape) => shape,
        Step::Goes(a) => shape_of(heap, name, a),
    }
}
