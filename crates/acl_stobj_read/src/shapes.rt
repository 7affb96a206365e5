//! The shape that a field's type gives it.

ghost use Rattle.std.specs.Prelude.{◌≡◌, ◌≤◌, ◌∷◌, length, option_map, option_and_then, option_to_list, unwrap_or, true, false, is_some, IfOk};
ghost use Rattle.model_objects.specs.Object.{Symbol};
ghost use Rattle.model_terms.specs.Worlds as worlds;
ghost use Rattle.model_expansion.specs.Forms.{elements};
ghost use Rattle.model_expansion.specs.TypeTerms.{accepted_type};
ghost use Rattle.model_stobjs.specs.Descriptors.{natural_in, length_of, length_in, up_to, test_of_word, nested_stobj, array_shape, hash_shape, listed_shape, other_shape, shape_of};
ghost use Rattle.acl_heap.specs.Objects.{object_of, Lies};
ghost use Rattle.acl_terms.specs.Signatures.{seen_name};
ghost use Rattle.acl_worlds.specs.Contents.{seen_world, WorldLies};
ghost use Rattle.acl_stobj_read.specs.Written.{seen_written, written_reach, SeenShape};
ghost use Rattle.acl_layers.specs.Lists.{option_reach};
ghost use Rattle.acl_stobj_read.specs.Shapes.{only};

use crate::lists::two_or_three;
use crate::nesting::nesting;
use crate::words::{self, NIL_WORD};
use crate::world::{constant_of, descriptor_of};
use crate::written::WrittenField;
use acl_base::{SymId, Test, Word};
use acl_heap::{Heap, Seen};
use acl_layers::{elements, is_end, is_symbol, take};
use acl_terms::Shape;
use acl_types::is_type;
use acl_worlds::World;
use std::alloc::{AllocError, Global};

/// The most stobjs that are nested in each other.
const MOST_NESTED: u32 = 64;

/// The most elements of an array.
const MOST_ELEMENTS: u32 = 16777216;

/// The most stobjs in an array of them.
const MOST_CHILDREN: u32 = 65536;

/// A natural number up to a bound.
#[tactic(auto, using(crate::proofs::ShapeLemmas::natural_is, crate::proofs::ShapeLemmas::too_great))]
fn natural(heap: &Heap, x: Word, most: u32) -> Option<u32>
    requires { Lies heap.now x }
    ensures { option_and_then (up_to most) (natural_in (object_of heap.now x)) ≡ result }
{
    match heap.look(x) {
        Seen::Integer(n) => {
            if n < 0 {
                return None;
            }
            if n > most as i128 {
                return None;
            }
            Some(n as u32)
        }
        Seen::Symbol(_) => None,
        Seen::Text(_) => None,
        Seen::Pair(_, _) => None,
    }
}

/// A natural number up to a bound, or the constant of a name that is one.
#[tactic(auto, using(crate::proofs::ShapeLemmas::named_none, crate::proofs::ShapeLemmas::named_some, crate::proofs::ShapeLemmas::named_other))]
fn length_of(world: &World, heap: &Heap, x: Word, most: u32) -> Option<u32>
    requires lies { Lies heap.now x }
    requires world { WorldLies heap.now world.now }
    ensures { option_and_then (up_to most) (length_of (seen_world heap.now world.now) (object_of heap.now x)) ≡ result }
{
    match heap.look(x) {
        Seen::Symbol(name) => match constant_of(world, heap, name) {
            None => None,
            Some(value) => natural(heap, value, most),
        },
        Seen::Integer(_) => natural(heap, x, most),
        Seen::Text(_) => None,
        Seen::Pair(_, _) => None,
    }
}

/// The element of a list of one.
#[tactic(auto, using(crate::proofs::ShapeLemmas::no_list, crate::proofs::ShapeLemmas::empty, crate::proofs::ShapeLemmas::more, crate::proofs::ShapeLemmas::one))]
fn only(heap: &Heap, x: Word) -> Option<Word>
    requires { Lies heap.now x }
    ensures is { option_and_then only (elements (object_of heap.now x)) ≡ option_map (object_of heap.now) result }
    ensures lies { option_reach result ≤ length heap.now }
{
    let left = elements(heap, x)?;
    let (first, left) = take(heap, left)?;
    if is_end(heap, left) {
        Some(first)
    } else {
        None
    }
}

/// The length of an array, up to a bound: it stands in a list of one.
#[tactic(auto, using(crate::proofs::ShapeLemmas::length_none, crate::proofs::ShapeLemmas::length_some))]
fn length_in(world: &World, heap: &Heap, x: Word, most: u32) -> Option<u32>
    requires lies { Lies heap.now x }
    requires world { WorldLies heap.now world.now }
    ensures { option_and_then (up_to most) (option_and_then (length_in (seen_world heap.now world.now)) (elements (object_of heap.now x))) ≡ result }
{
    match only(heap, x) {
        None => None,
        Some(n) => length_of(world, heap, n, most),
    }
}

fn test_of_word(heap: &Heap, x: Word) -> Option<Test>
    requires { Lies heap.now x }
    ensures { test_of_word (object_of heap.now x) ≡ result }
{
    if is_symbol(heap, x, words::EQ) {
        return Some(Test::Eq);
    }
    if is_symbol(heap, x, words::EQL) {
        return Some(Test::Eql);
    }
    if is_symbol(heap, x, words::EQUAL) {
        Some(Test::Equal)
    } else {
        None
    }
}

/// A stobj that may be nested one deeper.
fn nested_named(
    alloc: Global,
    world: &World,
    heap: &Heap,
    _field: &WrittenField,
    name: SymId,
) -> Result<Option<SymId>, AllocError>
    requires { WorldLies heap.now world.now }
    ensures { IfOk result (λ r. nested_stobj (seen_world heap.now world.now) (seen_written heap.now _field.now) (Symbol name.0) ≡ seen_name r) }
{
    match descriptor_of(world, heap, name) {
        None => Ok(None),
        Some(_) => {
            let depth = nesting(alloc, world, heap, MOST_NESTED, name)?;
            if depth < MOST_NESTED {
                Ok(Some(name))
            } else {
                Ok(None)
            }
        }
    }
}

fn nested_stobj(
    alloc: Global,
    world: &World,
    heap: &Heap,
    field: &WrittenField,
    x: Word,
) -> Result<Option<SymId>, AllocError>
    requires lies { Lies heap.now x }
    requires world { WorldLies heap.now world.now }
    ensures { IfOk result (λ r. nested_stobj (seen_world heap.now world.now) (seen_written heap.now field.now) (object_of heap.now x) ≡ seen_name r) }
{
    match heap.look(x) {
        Seen::Symbol(name) => {
            let found = nested_named(alloc, world, heap, field, name)?;
            Ok(found)
        }
        Seen::Integer(_) => Ok(None),
        Seen::Text(_) => Ok(None),
        Seen::Pair(_, _) => Ok(None),
    }
}

/// The initial value of an element.
fn initial_value(_heap: &Heap, field: &WrittenField) -> Word
    requires { written_reach field.now ≤ length _heap.now }
    ensures is { object_of _heap.now result ≡ unwrap_or (option_map (object_of _heap.now) field.now.initial) (Symbol 1) }
    ensures lies { Lies _heap.now result }
{
    match field.initial {
        Some(initial) => initial,
        None => NIL_WORD,
    }
}

/// An array of values.
#[tactic(auto, using(crate::proofs::ShapeLemmas::array_none, crate::proofs::ShapeLemmas::array_some))]
fn array_of_values(
    world: &World,
    heap: &Heap,
    field: &WrittenField,
    t: Word,
    n: Word,
) -> Option<Shape>
    requires field { written_reach field.now ≤ length heap.now }
    requires element { Lies heap.now t }
    requires number { Lies heap.now n }
    requires world { WorldLies heap.now world.now }
    requires accepted { is_some (accepted_type (object_of heap.now t)) ≡ true }
    ensures { SeenShape heap.now result (array_shape (seen_world heap.now world.now) (seen_written heap.now field.now) (object_of heap.now t) (accepted_type (object_of heap.now t)) (option_and_then (length_in (seen_world heap.now world.now)) (elements (object_of heap.now n)))) }
{
    match length_in(world, heap, n, MOST_ELEMENTS) {
        None => None,
        Some(len) => Some(Shape::Array {
            spec: t,
            initial: initial_value(heap, field),
            len,
            resizable: field.resizable,
        }),
    }
}

/// An array of stobjs.
#[tactic(auto, using(crate::proofs::ShapeLemmas::children_resizable, crate::proofs::ShapeLemmas::children_unknown, crate::proofs::ShapeLemmas::children_long, crate::proofs::ShapeLemmas::children_are))]
fn array_of_stobjs(
    alloc: Global,
    world: &World,
    heap: &Heap,
    field: &WrittenField,
    t: Word,
    n: Word,
) -> Result<Option<Shape>, AllocError>
    requires element { Lies heap.now t }
    requires number { Lies heap.now n }
    requires world { WorldLies heap.now world.now }
    requires other { is_some (accepted_type (object_of heap.now t)) ≡ false }
    ensures { IfOk result (λ r. SeenShape heap.now r (array_shape (seen_world heap.now world.now) (seen_written heap.now field.now) (object_of heap.now t) (accepted_type (object_of heap.now t)) (option_and_then (length_in (seen_world heap.now world.now)) (elements (object_of heap.now n))))) }
{
    if field.resizable {
        return Ok(None);
    }
    match nested_stobj(alloc, world, heap, field, t)? {
        None => Ok(None),
        Some(stobj) => match length_in(world, heap, n, MOST_CHILDREN) {
            None => Ok(None),
            Some(len) => Ok(Some(Shape::Children { stobj, len })),
        },
    }
}

fn array_shape(
    alloc: Global,
    world: &World,
    heap: &Heap,
    field: &WrittenField,
    t: Word,
    n: Word,
) -> Result<Option<Shape>, AllocError>
    requires field { written_reach field.now ≤ length heap.now }
    requires element { Lies heap.now t }
    requires number { Lies heap.now n }
    requires world { WorldLies heap.now world.now }
    ensures { IfOk result (λ r. SeenShape heap.now r (array_shape (seen_world heap.now world.now) (seen_written heap.now field.now) (object_of heap.now t) (accepted_type (object_of heap.now t)) (option_and_then (length_in (seen_world heap.now world.now)) (elements (object_of heap.now n))))) }
{
    if is_type(heap, t) {
        return Ok(array_of_values(world, heap, field, t, n));
    }
    let shape = array_of_stobjs(alloc, world, heap, field, t, n)?;
    Ok(shape)
}

fn hash_shape(_world: &World, heap: &Heap, field: &WrittenField, t: Word) -> Option<Shape>
    requires { Lies heap.now t }
    ensures { SeenShape heap.now result (hash_shape (seen_world heap.now _world.now) (seen_written heap.now field.now) (object_of heap.now t)) }
{
    if field.resizable {
        return None;
    }
    match test_of_word(heap, t) {
        None => None,
        Some(test) => Some(Shape::Hash(test)),
    }
}

/// The shape that a list of two or three gives.
fn listed_shape(
    alloc: Global,
    world: &World,
    heap: &Heap,
    field: &WrittenField,
    head: Word,
    t: Word,
    n: Option<Word>,
) -> Result<Option<Shape>, AllocError>
    requires field { written_reach field.now ≤ length heap.now }
    requires head { Lies heap.now head }
    requires element { Lies heap.now t }
    requires number { option_reach n ≤ length heap.now }
    requires world { WorldLies heap.now world.now }
    ensures { IfOk result (λ r. SeenShape heap.now r (listed_shape (seen_world heap.now world.now) (seen_written heap.now field.now) (object_of heap.now head ∷ (object_of heap.now t ∷ option_to_list (option_map (object_of heap.now) n))))) }
{
    if is_symbol(heap, head, words::HASH_TABLE) {
        return match n {
            None => Ok(hash_shape(world, heap, field, t)),
            Some(_) => Ok(hash_shape(world, heap, field, t)),
        };
    }
    match n {
        None => Ok(None),
        Some(n) => {
            if !is_symbol(heap, head, words::ARRAY) {
                return Ok(None);
            }
            let shape = array_shape(alloc, world, heap, field, t, n)?;
            Ok(shape)
        }
    }
}

/// The shape of a field whose type is not one of values.
#[tactic(auto, using(crate::proofs::ShapeLemmas::not_listed, crate::proofs::ShapeLemmas::listed, crate::proofs::ShapeLemmas::child_resizable, crate::proofs::ShapeLemmas::child_unknown, crate::proofs::ShapeLemmas::child_is))]
fn other_shape(
    alloc: Global,
    world: &World,
    heap: &Heap,
    field: &WrittenField,
) -> Result<Option<Shape>, AllocError>
    requires field { written_reach field.now ≤ length heap.now }
    requires world { WorldLies heap.now world.now }
    ensures { IfOk result (λ r. SeenShape heap.now r (other_shape (seen_world heap.now world.now) (seen_written heap.now field.now) (object_of heap.now field.now.spec))) }
{
    match heap.look(field.spec) {
        Seen::Symbol(name) => {
            if field.resizable {
                return Ok(None);
            }
            match nested_named(alloc, world, heap, field, name)? {
                None => Ok(None),
                Some(stobj) => Ok(Some(Shape::Child(stobj))),
            }
        }
        Seen::Pair(_, _) => match two_or_three(heap, field.spec) {
            None => Ok(None),
            Some((head, t, n)) => {
                let shape = listed_shape(alloc, world, heap, field, head, t, n)?;
                Ok(shape)
            }
        },
        Seen::Integer(_) => Ok(None),
        Seen::Text(_) => Ok(None),
    }
}

/// The shape of a field. None where its type is not accepted.
#[tactic(auto, using(crate::proofs::ShapeLemmas::scalar_resizable, crate::proofs::ShapeLemmas::scalar_is, crate::proofs::ShapeLemmas::other_is))]
pub fn shape_of(
    alloc: Global,
    world: &World,
    heap: &Heap,
    field: &WrittenField,
) -> Result<Option<Shape>, AllocError>
    requires field { written_reach field.now ≤ length heap.now }
    requires world { WorldLies heap.now world.now }
    ensures { IfOk result (λ r. SeenShape heap.now r (shape_of (seen_world heap.now world.now) (seen_written heap.now field.now))) }
{
    if !is_type(heap, field.spec) {
        let shape = other_shape(alloc, world, heap, field)?;
        return Ok(shape);
    }
    if field.resizable {
        return Ok(None);
    }
    Ok(Some(Shape::Scalar {
        spec: field.spec,
        initial: initial_value(heap, field),
    }))
}
