//! Whether an object is as a layout says. Only pairs that are compared with those of a type take memory.

ghost use Rattle.std.specs.Prelude.{◌≡◌, ◌≤◌, length, map, IfOk};
ghost use Rattle.model_prims.specs.Kinds.{by_number};
ghost use Rattle.model_lists.specs.Layouts.{recognizes, field_recognizes, every};
ghost use Rattle.acl_heap.specs.Objects.{object_of, Lies};
ghost use Rattle.acl_terms.specs.Definitions.{seen_shape, seen_field, shape_reach};
ghost use Rattle.acl_worlds.specs.Contents.{seen_world, WorldLies};
ghost use Rattle.acl_new_lists.specs.Begun.{FieldsLie};
ghost use Rattle.acl_layouts.specs.Typed.{IsTyped, AreTyped, AcceptsTypes};
ghost use Rattle.acl_layouts.specs.Laid.{laid, fields_laid, stobj_laid};

use crate::finding::{definition_of, descriptor_of, foundation_of, shape_at};
use crate::listing::{all_meet, has_length, is_nil};
use acl_base::{SymId, Word};
use acl_heap::{Heap, Seen};
use acl_meets::meets;
use acl_terms::{FieldDescriptor, Shape};
use acl_worlds::World;
use std::alloc::AllocError;

/// Whether it is as a field in which so many objects may be nested.
#[cycle(recognized)]
#[tactic(auto, using(crate::proofs::RecognizeLemmas::scalar_shown, crate::proofs::RecognizeLemmas::array_shown, crate::proofs::RecognizeLemmas::hash_shown, crate::proofs::RecognizeLemmas::child_shown, crate::proofs::RecognizeLemmas::children_shown, crate::proofs::RecognizeLemmas::scalar_reach, crate::proofs::RecognizeLemmas::array_reach, crate::proofs::RecognizeLemmas::scalar_typed, crate::proofs::RecognizeLemmas::array_typed))]
fn is_field(
    world: &World,
    heap: &Heap,
    depth: u32,
    shape: Shape,
    x: Word,
) -> Result<bool, AllocError>
    requires world { WorldLies heap.now world.now }
    requires accepts { AcceptsTypes (seen_world heap.now world.now) }
    requires shape { shape_reach shape ≤ length heap.now }
    requires typed { IsTyped (seen_shape heap.now shape) }
    requires object { Lies heap.now x }
    ensures { IfOk result (λ b. b ≡ recognizes by_number (laid (seen_world heap.now world.now) depth (seen_shape heap.now shape)) (object_of heap.now x)) }
{
    match shape {
        Shape::Scalar { spec, .. } => {
            let holds = meets(heap, spec, x)?;
            Ok(holds)
        }
        Shape::Array {
            spec,
            len,
            resizable,
            ..
        } => {
            let all = all_meet(heap, spec, x)?;
            let long = has_length(heap, x, len);
            Ok(all & (resizable | long))
        }
        Shape::Hash(_) => Ok(true),
        Shape::Child(stobj) => {
            let holds = is_stobj(world, heap, depth, stobj, x)?;
            Ok(holds)
        }
        Shape::Children { stobj, len } => {
            let all = are_stobjs(world, heap, depth, stobj, x)?;
            let long = has_length(heap, x, len);
            Ok(all & long)
        }
    }
}

/// Whether each element of a true list is as an object in which so many may be nested, itself counted.
#[cycle(recognized)]
fn are_stobjs(
    world: &World,
    heap: &Heap,
    depth: u32,
    stobj: SymId,
    list: Word,
) -> Result<bool, AllocError>
    requires world { WorldLies heap.now world.now }
    requires accepts { AcceptsTypes (seen_world heap.now world.now) }
    requires list { Lies heap.now list }
    ensures { IfOk result (λ b. b ≡ every by_number (recognizes by_number (stobj_laid (seen_world heap.now world.now) depth stobj.0)) (object_of heap.now list)) }
{
    let mut rest = list;
    while let Seen::Pair(first, next) = heap.look(rest) {
        if !is_stobj(world, heap, depth, stobj, first)? {
            return Ok(false);
        }
        rest = next;
    }
    Ok(is_nil(heap, rest))
}

/// Whether it is as fields in each of which so many objects may be nested.
#[cycle(recognized)]
#[tactic(auto, using(crate::proofs::RecognizeLemmas::fields_end, crate::proofs::RecognizeLemmas::fields_short))]
fn are_fields(
    world: &World,
    heap: &Heap,
    depth: u32,
    fields: &[FieldDescriptor],
    x: Word,
) -> Result<bool, AllocError>
    requires world { WorldLies heap.now world.now }
    requires accepts { AcceptsTypes (seen_world heap.now world.now) }
    requires fields { FieldsLie heap.now fields.now }
    requires typed { AreTyped (map (seen_field heap.now) fields.now) }
    requires object { Lies heap.now x }
    ensures { IfOk result (λ b. b ≡ recognizes by_number (fields_laid (seen_world heap.now world.now) depth (map (seen_field heap.now) fields.now)) (object_of heap.now x)) }
{
    let mut rest = x;
    for at in 0..fields.len() {
        match heap.look(rest) {
            Seen::Pair(first, next) => {
                let shape = shape_at(fields, heap, at);
                if !is_field(world, heap, depth, shape, first)? {
                    return Ok(false);
                }
                rest = next;
            }
            Seen::Integer(_) => return Ok(false),
            Seen::Symbol(_) => return Ok(false),
            Seen::Text(_) => return Ok(false),
        }
    }
    Ok(is_nil(heap, rest))
}

/// Whether it is as an object in which so many may be nested, itself counted.
#[cycle(recognized)]
#[tactic(auto, using(crate::proofs::RecognizeLemmas::shown_nowhere, crate::proofs::RecognizeLemmas::shown_unknown, crate::proofs::RecognizeLemmas::shown_abstract, crate::proofs::RecognizeLemmas::shown_concrete, crate::proofs::RecognizeLemmas::shown_other, crate::proofs::FieldLemmas::fields_typed))]
fn is_stobj(
    world: &World,
    heap: &Heap,
    depth: u32,
    stobj: SymId,
    x: Word,
) -> Result<bool, AllocError>
    requires world { WorldLies heap.now world.now }
    requires accepts { AcceptsTypes (seen_world heap.now world.now) }
    requires object { Lies heap.now x }
    ensures { IfOk result (λ b. b ≡ recognizes by_number (stobj_laid (seen_world heap.now world.now) depth stobj.0) (object_of heap.now x)) }
{
    if depth == 0 {
        return Ok(is_nil(heap, x));
    }
    match definition_of(world, heap, stobj) {
        None => Ok(is_nil(heap, x)),
        Some(definition) => match foundation_of(definition, heap) {
            Some(foundation) => {
                let holds = is_stobj(world, heap, depth - 1, foundation, x)?;
                Ok(holds)
            }
            None => match descriptor_of(definition, heap) {
                Some(descriptor) => {
                    let fields = descriptor.fields.as_slice();
                    let holds = are_fields(world, heap, depth - 1, fields, x)?;
                    Ok(holds)
                }
                None => Ok(is_nil(heap, x)),
            },
        },
    }
}

/// Whether it is as the recognizer of a field says, which asks for no length of the field itself.
#[tactic(auto, using(crate::proofs::RecognizeLemmas::scalar_told, crate::proofs::RecognizeLemmas::array_told, crate::proofs::RecognizeLemmas::hash_told, crate::proofs::RecognizeLemmas::child_told, crate::proofs::RecognizeLemmas::children_told, crate::proofs::RecognizeLemmas::scalar_reach, crate::proofs::RecognizeLemmas::array_reach, crate::proofs::RecognizeLemmas::scalar_typed, crate::proofs::RecognizeLemmas::array_typed))]
pub fn recognizes_field(
    world: &World,
    heap: &Heap,
    depth: u32,
    shape: Shape,
    x: Word,
) -> Result<bool, AllocError>
    requires world { WorldLies heap.now world.now }
    requires accepts { AcceptsTypes (seen_world heap.now world.now) }
    requires shape { shape_reach shape ≤ length heap.now }
    requires typed { IsTyped (seen_shape heap.now shape) }
    requires object { Lies heap.now x }
    ensures { IfOk result (λ b. b ≡ field_recognizes by_number (laid (seen_world heap.now world.now) depth (seen_shape heap.now shape)) (object_of heap.now x)) }
{
    match shape {
        Shape::Scalar { spec, .. } => {
            let holds = meets(heap, spec, x)?;
            Ok(holds)
        }
        Shape::Array { spec, .. } => {
            let all = all_meet(heap, spec, x)?;
            Ok(all)
        }
        Shape::Hash(_) => Ok(true),
        Shape::Child(stobj) => {
            let holds = is_stobj(world, heap, depth, stobj, x)?;
            Ok(holds)
        }
        Shape::Children { stobj, .. } => {
            let all = are_stobjs(world, heap, depth, stobj, x)?;
            Ok(all)
        }
    }
}
