//! What an object is as a type of a declaration, one level deep.

ghost use Rattle.std.specs.Prelude.{◌≡◌, ℕ, ◌+◌, ◌≤◌, ◌<◌, length, IsTrue, option_map};
ghost use Rattle.model_objects.specs.Object.{Symbol, Pair, weight};
ghost use Rattle.model_terms.specs.Cores.{Var};
ghost use Rattle.model_lists.specs.Types.{only_element, is_nil_word};
ghost use Rattle.model_expansion.specs.TypeTerms.{predicate_in, denied_test, headed_test, declared};
ghost use Rattle.acl_heap.specs.Objects.{object_of, Lies};
ghost use Rattle.acl_types.specs.Shapes.{SeenOnly};
ghost use Rattle.acl_declare.specs.Tests.{one_test, list_test, predicate_test, seen_shape, seen_step, shape_reach, step_reach, StepShrinks};

use crate::shape::{TestShape, TestStep};
use crate::words;
use acl_base::{SymId, Word};
use acl_heap::{Heap, Seen};
use acl_types::Join;

fn is_nil(heap: &Heap, x: Word) -> bool
    requires { Lies heap.now x }
    ensures is { result ≡ is_nil_word (object_of heap.now x) }
    ensures nil { IsTrue result → object_of heap.now x ≡ Symbol 1 }
{
    match heap.look(x) {
        Seen::Symbol(s) => s.0 == words::NIL,
        Seen::Integer(_) => false,
        Seen::Text(_) => false,
        Seen::Pair(_, _) => false,
    }
}

/// The only element of a list.
fn only(heap: &Heap, d: Word) -> Option<Word>
    requires { Lies heap.now d }
    ensures { SeenOnly heap.now result (object_of heap.now d) }
{
    match heap.look(d) {
        Seen::Pair(a, rest) => if is_nil(heap, rest) { Some(a) } else { None },
        Seen::Integer(_) => None,
        Seen::Symbol(_) => None,
        Seen::Text(_) => None,
    }
}

/// What meets the predicate that a list names.
#[tactic(auto, using(crate::proofs::ShapeLemmas::predicate_none, crate::proofs::ShapeLemmas::predicate_is, crate::proofs::ShapeLemmas::predicate_integer, crate::proofs::ShapeLemmas::predicate_text, crate::proofs::ShapeLemmas::predicate_pair))]
fn satisfies(heap: &Heap, _name: SymId, d: Word) -> TestShape
    requires { Lies heap.now d }
    ensures is { seen_shape _name.0 heap.now result ≡ option_map (predicate_test _name.0) (predicate_in (only_element (object_of heap.now d))) }
    ensures reach { shape_reach result ≤ length heap.now }
{
    match only(heap, d) {
        None => TestShape::Bad,
        Some(a) => match heap.look(a) {
            Seen::Symbol(p) => TestShape::Satisfies(p),
            Seen::Integer(_) => TestShape::Bad,
            Seen::Text(_) => TestShape::Bad,
            Seen::Pair(_, _) => TestShape::Bad,
        },
    }
}

/// What a type is not.
#[tactic(auto, using(crate::proofs::ShapeLemmas::not_is, crate::proofs::ShapeLemmas::not_none))]
fn other(heap: &Heap, _name: SymId, d: Word) -> TestShape
    requires { Lies heap.now d }
    ensures is { seen_shape _name.0 heap.now result ≡ denied_test (Var _name.0) (only_element (object_of heap.now d)) (list_test _name.0 Join.Either (object_of heap.now d)) }
    ensures reach { shape_reach result ≤ length heap.now }
{
    match only(heap, d) {
        None => TestShape::Bad,
        Some(a) => TestShape::Other(a),
    }
}

/// A list of which a first type is known.
#[tactic(auto, using(crate::proofs::ShapeLemmas::joined_last, crate::proofs::ShapeLemmas::joined_more, crate::proofs::ShapeLemmas::bad_integer, crate::proofs::ShapeLemmas::bad_text, crate::proofs::ShapeLemmas::bad_symbol))]
fn listed_from(heap: &Heap, _name: SymId, join: Join, a: Word, rest: Word) -> TestStep
    requires first { Lies heap.now a }
    requires rest { Lies heap.now rest }
    ensures is { seen_step _name.0 heap.now result ≡ list_test _name.0 join (Pair (object_of heap.now a) (object_of heap.now rest)) }
    ensures reach { step_reach result ≤ length heap.now }
    ensures shrinks { StepShrinks heap.now result (weight (object_of heap.now a) + 1) }
{
    match heap.look(rest) {
        Seen::Pair(_, _) => TestStep::Stays(TestShape::Joined(join, a, rest)),
        Seen::Symbol(s) => if s.0 == words::NIL {
            TestStep::Goes(a)
        } else {
            TestStep::Stays(TestShape::Bad)
        },
        Seen::Integer(_) => TestStep::Stays(TestShape::Bad),
        Seen::Text(_) => TestStep::Stays(TestShape::Bad),
    }
}

/// A list of types, of which any is to be met, or all.
#[tactic(auto, using(crate::proofs::ShapeLemmas::list_none, crate::proofs::ShapeLemmas::list_symbol, crate::proofs::ShapeLemmas::list_integer, crate::proofs::ShapeLemmas::list_text))]
fn listed(heap: &Heap, name: SymId, join: Join, d: Word) -> TestStep
    requires { Lies heap.now d }
    ensures is { seen_step name.0 heap.now result ≡ list_test name.0 join (object_of heap.now d) }
    ensures reach { step_reach result ≤ length heap.now }
    ensures shrinks { StepShrinks heap.now result (weight (object_of heap.now d)) }
{
    match heap.look(d) {
        Seen::Pair(a, rest) => listed_from(heap, name, join, a, rest),
        Seen::Symbol(s) => if s.0 == words::NIL {
            TestStep::Stays(TestShape::Empty(join))
        } else {
            TestStep::Stays(TestShape::Bad)
        },
        Seen::Integer(_) => TestStep::Stays(TestShape::Bad),
        Seen::Text(_) => TestStep::Stays(TestShape::Bad),
    }
}

/// A list with this head.
fn headed(heap: &Heap, name: SymId, s: SymId, d: Word, whole: Word) -> TestStep
    requires rest { Lies heap.now d }
    requires whole { Lies heap.now whole }
    requires is { object_of heap.now whole ≡ Pair (Symbol s.0) (object_of heap.now d) }
    ensures is { seen_step name.0 heap.now result ≡ headed_test (Var name.0) s.0 (object_of heap.now d) (declared (Var name.0) (object_of heap.now d)) }
    ensures reach { step_reach result ≤ length heap.now }
    ensures shrinks { StepShrinks heap.now result (weight (object_of heap.now d)) }
{
    match s.0 {
        words::SATISFIES => TestStep::Stays(satisfies(heap, name, d)),
        words::OR => listed(heap, name, Join::Either, d),
        words::AND => listed(heap, name, Join::Both, d),
        words::NOT => TestStep::Stays(other(heap, name, d)),
        _ => TestStep::Stays(TestShape::Plain(whole)),
    }
}

fn pair_step(heap: &Heap, name: SymId, a: Word, d: Word, whole: Word) -> TestStep
    requires head { Lies heap.now a }
    requires rest { Lies heap.now d }
    requires whole { Lies heap.now whole }
    requires is { object_of heap.now whole ≡ Pair (object_of heap.now a) (object_of heap.now d) }
    ensures is { seen_step name.0 heap.now result ≡ one_test name.0 (Pair (object_of heap.now a) (object_of heap.now d)) }
    ensures reach { step_reach result ≤ length heap.now }
    ensures shrinks { StepShrinks heap.now result (weight (object_of heap.now d)) }
{
    match heap.look(a) {
        Seen::Symbol(s) => headed(heap, name, s, d, whole),
        Seen::Integer(_) => TestStep::Stays(TestShape::Bad),
        Seen::Text(_) => TestStep::Stays(TestShape::Bad),
        Seen::Pair(_, _) => TestStep::Stays(TestShape::Bad),
    }
}

/// One step towards the shape of a type.
fn step(heap: &Heap, name: SymId, w: Word) -> TestStep
    requires { Lies heap.now w }
    ensures is { seen_step name.0 heap.now result ≡ one_test name.0 (object_of heap.now w) }
    ensures reach { step_reach result ≤ length heap.now }
    ensures shrinks { StepShrinks heap.now result (weight (object_of heap.now w)) }
{
    match heap.look(w) {
        Seen::Pair(a, d) => pair_step(heap, name, a, d, w),
        Seen::Symbol(_) => TestStep::Stays(TestShape::Plain(w)),
        Seen::Integer(_) => TestStep::Stays(TestShape::Bad),
        Seen::Text(_) => TestStep::Stays(TestShape::Bad),
    }
}

/// The shape of a type. Heads with one type alone are passed by a loop.
pub fn test_shape(heap: &Heap, name: SymId, w: Word) -> TestShape
    requires { Lies heap.now w }
    ensures is { seen_shape name.0 heap.now result ≡ one_test name.0 (object_of heap.now w) }
    ensures reach { shape_reach result ≤ length heap.now }
{
    let mut at = w;
    'heads: loop {
        match step(heap, name, at) {
            TestStep::Stays(shape) => return shape,
            TestStep::Goes(next) => at = next,
        }
    }
}

/// The shape of a list of types.
pub fn list_shape(heap: &Heap, name: SymId, join: Join, d: Word) -> TestShape
    requires { Lies heap.now d }
    ensures is { seen_shape name.0 heap.now result ≡ list_test name.0 join (object_of heap.now d) }
    ensures reach { shape_reach result ≤ length heap.now }
{
    match listed(heap, name, join, d) {
        TestStep::Stays(shape) => shape,
        TestStep::Goes(a) => test_shape(heap, name, a),
    }
}
