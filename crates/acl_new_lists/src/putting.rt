//! Lists of objects, from the last field to the first. What is refused has added some cells.

ghost use Rattle.std.specs.Prelude.{◌≡◌, ◌≤◌, ◌<◌, length, map, IfOk};
ghost use Rattle.model_lists.specs.Lists.{Value};
ghost use Rattle.model_lists.specs.Layouts.{repeated};
ghost use Rattle.acl_heap.specs.Objects.{object_of, Lies};
ghost use Rattle.acl_lists.specs.Tables.{list_at, Grown};
ghost use Rattle.acl_terms.specs.Definitions.{seen_shape, seen_field, shape_reach};
ghost use Rattle.acl_worlds.specs.Contents.{seen_world, WorldLies};
ghost use Rattle.acl_new_lists.specs.Begun.{begun, shape_begun, fields_begun, FieldsLie};

use crate::finding::{definition_of, descriptor_of, field_before, foundation_of};
use acl_base::{SymId, Word};
use acl_heap::Heap;
use acl_lists::{ListId, Lists};
use acl_terms::{FieldDescriptor, Shape};
use acl_worlds::World;
use std::alloc::{AllocError, Global};

/// An array of so many elements.
#[tactic(auto, using(acl_lists::proofs::TableLemmas::grown_then))]
fn put_array(
    alloc: Global,
    lists: &mut Lists,
    heap: &Heap,
    initial: Word,
    len: u32,
) -> Result<ListId, AllocError>
    requires { Lies heap.now initial }
    ensures within { IfOk result (λ n. n.0 < length lists.new) }
    ensures is { IfOk result (λ n. list_at lists.new n ≡ repeated len (Value (object_of heap.now initial))) }
    ensures grows { Grown lists.old lists.new }
{
    let element = lists.value(alloc, heap, initial)?;
    let n = lists.repeated(element, len as u64)?;
    Ok(n)
}

/// A field; so many objects may be nested in each other in it.
#[cycle(putting)]
#[tactic(auto, using(crate::proofs::BegunLemmas::scalar_begun, crate::proofs::BegunLemmas::array_begun, crate::proofs::BegunLemmas::hash_begun, crate::proofs::BegunLemmas::child_begun, crate::proofs::BegunLemmas::children_begun, crate::proofs::BegunLemmas::scalar_lies, crate::proofs::BegunLemmas::array_lies, acl_lists::proofs::TableLemmas::grown_then))]
fn put_field(
    alloc: Global,
    lists: &mut Lists,
    world: &World,
    heap: &Heap,
    depth: u32,
    shape: Shape,
) -> Result<ListId, AllocError>
    requires world { WorldLies heap.now world.now }
    requires shape { shape_reach shape ≤ length heap.now }
    ensures within { IfOk result (λ n. n.0 < length lists.new) }
    ensures is { IfOk result (λ n. list_at lists.new n ≡ shape_begun (seen_world heap.now world.now) depth (seen_shape heap.now shape)) }
    ensures grows { Grown lists.old lists.new }
{
    match shape {
        Shape::Scalar { initial, .. } => {
            let n = lists.value(alloc, heap, initial)?;
            Ok(n)
        }
        Shape::Array { initial, len, .. } => {
            let n = put_array(alloc, lists, heap, initial, len)?;
            Ok(n)
        }
        Shape::Hash(_) => {
            let n = lists.no_pairs()?;
            Ok(n)
        }
        Shape::Child(stobj) => {
            let n = put_stobj(alloc, lists, world, heap, depth, stobj)?;
            Ok(n)
        }
        Shape::Children { stobj, len } => {
            let child = put_stobj(alloc, lists, world, heap, depth, stobj)?;
            let n = lists.repeated(child, len as u64)?;
            Ok(n)
        }
    }
}

/// Fields; so many objects may be nested in each other in each.
#[cycle(putting)]
#[tactic(auto, using(crate::proofs::BegunLemmas::fields_whole))]
fn put_fields(
    alloc: Global,
    lists: &mut Lists,
    world: &World,
    heap: &Heap,
    depth: u32,
    fields: &[FieldDescriptor],
) -> Result<ListId, AllocError>
    requires world { WorldLies heap.now world.now }
    requires fields { FieldsLie heap.now fields.now }
    ensures within { IfOk result (λ n. n.0 < length lists.new) }
    ensures is { IfOk result (λ n. list_at lists.new n ≡ fields_begun (seen_world heap.now world.now) depth (map (seen_field heap.now) fields.now)) }
    ensures grows { Grown lists.old lists.new }
{
    let mut at = lists.end()?;
    for done in 0..fields.len() {
        let field = field_before(fields, heap, done);
        let first = put_field(alloc, lists, world, heap, depth, field.shape)?;
        at = lists.add_item(first, at)?;
    }
    Ok(at)
}

/// An object; so many may be nested in each other, itself counted.
#[cycle(putting)]
#[tactic(auto, using(crate::proofs::BegunLemmas::begun_nowhere, crate::proofs::BegunLemmas::begun_unknown, crate::proofs::BegunLemmas::begun_abstract, crate::proofs::BegunLemmas::begun_concrete, crate::proofs::BegunLemmas::begun_other))]
pub(crate) fn put_stobj(
    alloc: Global,
    lists: &mut Lists,
    world: &World,
    heap: &Heap,
    depth: u32,
    stobj: SymId,
) -> Result<ListId, AllocError>
    requires world { WorldLies heap.now world.now }
    ensures within { IfOk result (λ n. n.0 < length lists.new) }
    ensures is { IfOk result (λ n. list_at lists.new n ≡ begun (seen_world heap.now world.now) depth stobj.0) }
    ensures grows { Grown lists.old lists.new }
{
    if depth == 0 {
        let n = lists.end()?;
        return Ok(n);
    }
    match definition_of(world, heap, stobj) {
        None => {
            let n = lists.end()?;
            Ok(n)
        }
        Some(definition) => match foundation_of(definition, heap) {
            Some(foundation) => {
                let n = put_stobj(alloc, lists, world, heap, depth - 1, foundation)?;
                Ok(n)
            }
            None => match descriptor_of(definition, heap) {
                Some(descriptor) => {
                    let fields = descriptor.fields.as_slice();
                    let n = put_fields(alloc, lists, world, heap, depth - 1, fields)?;
                    Ok(n)
                }
                None => {
                    let n = lists.end()?;
                    Ok(n)
                }
            },
        },
    }
}
