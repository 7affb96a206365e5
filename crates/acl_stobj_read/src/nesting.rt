//! How deep a stobj nests others.

ghost use Rattle.std.specs.Prelude.{◌≡◌, ◌≤◌, ◌<◌, map, length, max, min, nat_eq, option_map, Some, IfOk, OnOk};
ghost use Rattle.indexmap.specs.IndexMap.{get, Updates};
ghost use Rattle.model_stobjs.specs.Descriptors.{held_stobj, nesting_within, most_of, field_nesting};
ghost use Rattle.acl_terms.specs.Definitions.{seen_shape, seen_field};
ghost use Rattle.acl_terms.specs.Signatures.{seen_name};
ghost use Rattle.acl_worlds.specs.Contents.{seen_world, WorldLies};
ghost use Rattle.acl_stobj_read.specs.Nesting.{KnowsDepths};

use crate::world::descriptor_of;
use acl_base::SymId;
use acl_heap::Heap;
use acl_terms::{FieldDescriptor, Shape};
use acl_worlds::World;
use indexmap::IndexMap;
use std::alloc::{AllocError, Global};

/// The stobj that a field holds.
fn held_stobj(_heap: &Heap, shape: Shape) -> Option<SymId>
    ensures { held_stobj (seen_shape _heap.now shape) ≡ seen_name result }
{
    match shape {
        Shape::Scalar { .. } => None,
        Shape::Array { .. } => None,
        Shape::Hash(_) => None,
        Shape::Child(stobj) => Some(stobj),
        Shape::Children { stobj, .. } => Some(stobj),
    }
}

fn greater(a: u32, b: u32) -> u32
    ensures { result ≡ max a b }
{
    if a < b { b } else { a }
}

fn smaller(a: u32, b: u32) -> u32
    ensures { result ≡ min a b }
{
    if a < b { a } else { b }
}

/// The depth of a stobj, where it is known.
fn known_depth(known: &IndexMap<u32, u32>, stobj: u32) -> Option<u32>
    ensures { result ≡ get nat_eq known.now stobj }
{
    match known.get(&stobj) {
        Some(depth) => Some(*depth),
        None => None,
    }
}

fn note(known: &mut IndexMap<u32, u32>, stobj: u32, depth: u32) -> Result<(), AllocError>
    ensures { OnOk result (Updates nat_eq known.old known.new stobj (Some depth)) }
{
    known.insert(stobj, depth)?;
    Ok(())
}

/// Notes the depth of a stobj that was followed, if it ended before it was cut.
#[tactic(auto, using(crate::proofs::NestingLemmas::one_more_known))]
fn note_followed(
    _world: &World,
    _heap: &Heap,
    known: &mut IndexMap<u32, u32>,
    left: u32,
    stobj: SymId,
    depth: u32,
) -> Result<(), AllocError>
    requires known { KnowsDepths (seen_world _heap.now _world.now) known.old }
    requires is { nesting_within (seen_world _heap.now _world.now) left stobj.0 ≡ depth }
    ensures { OnOk result (KnowsDepths (seen_world _heap.now _world.now) known.new) }
{
    if depth < left {
        note(known, stobj.0, depth)?;
    }
    Ok(())
}

/// The deepest nesting of the stobjs that fields hold. What is cut at one is cut at all.
#[cycle(nesting)]
#[tactic(auto, using(crate::proofs::NestingLemmas::most_more, crate::proofs::NestingLemmas::most_none, crate::proofs::NestingLemmas::most_end, crate::proofs::NestingLemmas::most_cut))]
fn deepest(
    world: &World,
    heap: &Heap,
    known: &mut IndexMap<u32, u32>,
    left: u32,
    fields: &[FieldDescriptor],
) -> Result<u32, AllocError>
    requires world { WorldLies heap.now world.now }
    requires known { KnowsDepths (seen_world heap.now world.now) known.old }
    ensures is { IfOk result (λ n. most_of (map (field_nesting (nesting_within (seen_world heap.now world.now) left)) (map (seen_field heap.now) fields.now)) ≡ n) }
    ensures bound { IfOk result (λ n. n ≤ left) }
    ensures known { OnOk result (KnowsDepths (seen_world heap.now world.now) known.new) }
{
    let mut most: u32 = 0;
    let mut rest = fields;
    'fields: while let Some((field, others)) = rest.split_first() {
        match held_stobj(heap, field.shape) {
            None => {}
            Some(stobj) => {
                let depth = followed(world, heap, known, left, stobj)?;
                if depth == left {
                    return Ok(left);
                }
                most = greater(most, depth);
            }
        }
        rest = others;
    }
    Ok(most)
}

/// How deep a stobj nests others, itself counted; they are followed so deep. Each that ends before it is cut is followed once.
#[cycle(nesting)]
#[tactic(auto, using(crate::proofs::NestingLemmas::nested_zero, crate::proofs::NestingLemmas::nested_none, crate::proofs::NestingLemmas::nested_in, crate::proofs::NestingLemmas::nested_known))]
fn followed(
    world: &World,
    heap: &Heap,
    known: &mut IndexMap<u32, u32>,
    left: u32,
    stobj: SymId,
) -> Result<u32, AllocError>
    requires world { WorldLies heap.now world.now }
    requires known { KnowsDepths (seen_world heap.now world.now) known.old }
    ensures is { IfOk result (λ n. nesting_within (seen_world heap.now world.now) left stobj.0 ≡ n) }
    ensures bound { IfOk result (λ n. n ≤ left) }
    ensures known { OnOk result (KnowsDepths (seen_world heap.now world.now) known.new) }
{
    if left == 0 {
        return Ok(0);
    }
    match known_depth(known, stobj.0) {
        Some(depth) => Ok(smaller(left, depth)),
        None => match descriptor_of(world, heap, stobj) {
            None => Ok(0),
            Some(descriptor) => {
                let below = deepest(world, heap, known, left - 1, descriptor.fields.as_slice())?;
                let depth = below + 1;
                note_followed(world, heap, known, left, stobj, depth)?;
                Ok(depth)
            }
        },
    }
}

/// How deep a stobj nests others, itself counted; they are followed so deep. The cost is linear in the fields of the stobjs
/// that are reached.
#[tactic(auto, using(crate::proofs::NestingLemmas::none_known))]
pub fn nesting(
    alloc: Global,
    world: &World,
    heap: &Heap,
    left: u32,
    stobj: SymId,
) -> Result<u32, AllocError>
    requires { WorldLies heap.now world.now }
    ensures is { IfOk result (λ n. nesting_within (seen_world heap.now world.now) left stobj.0 ≡ n) }
    ensures bound { IfOk result (λ n. n ≤ left) }
{
    let mut known = IndexMap::new(alloc);
    let depth = followed(world, heap, &mut known, left, stobj)?;
    Ok(depth)
}
