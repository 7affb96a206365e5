//! How a field is laid out.

ghost use Rattle.std.specs.Prelude.{◌≡◌, ◌≤◌, length, map};
ghost use Rattle.model_lists.specs.Layouts.{NoField, field_layout};
ghost use Rattle.model_eval.specs.StobjLayouts.{stobj_layout};
ghost use Rattle.acl_terms.specs.Definitions.{seen_shape, seen_field, shape_reach};
ghost use Rattle.acl_worlds.specs.Contents.{seen_world, WorldLies};
ghost use Rattle.acl_new_lists.specs.Begun.{itself, FieldsLie};
ghost use Rattle.acl_layouts.specs.Typed.{IsTyped, AreTyped, AcceptsTypes};
ghost use Rattle.acl_layouts.specs.Laid.{laid, field_within, field_among};

use crate::finding::{definition_of, descriptor_of, foundation_of, shape_at};
use acl_base::SymId;
use acl_heap::Heap;
use acl_terms::{FieldDescriptor, Shape};
use acl_worlds::World;

/// How many objects may be nested in each other, and one more.
const DEEPEST: u32 = 65;

/// A field: its shape, and how many objects may be nested in each other in it. What is no field is an object where none may be.
#[derive(Clone, Copy, Debug)]
pub struct LaidOut {
    pub depth: u32,
    pub shape: Shape,
}

/// No field.
#[tactic(auto, using(crate::proofs::LaidLemmas::nowhere_laid))]
fn nowhere(_world: &World, _heap: &Heap, stobj: SymId) -> LaidOut
    ensures is { laid (seen_world _heap.now _world.now) result.depth (seen_shape _heap.now result.shape) ≡ NoField }
    ensures lies { shape_reach result.shape ≤ length _heap.now }
    ensures typed { IsTyped (seen_shape _heap.now result.shape) }
{
    LaidOut {
        depth: 0,
        shape: Shape::Child(stobj),
    }
}

/// A field of these; so many objects may be nested in each other in each.
#[tactic(auto, using(crate::proofs::LaidLemmas::field_there, crate::proofs::LaidLemmas::field_missing))]
fn among(
    world: &World,
    heap: &Heap,
    depth: u32,
    stobj: SymId,
    fields: &[FieldDescriptor],
    field: u32,
) -> LaidOut
    requires { FieldsLie heap.now fields.now }
    ensures is { laid (seen_world heap.now world.now) result.depth (seen_shape heap.now result.shape) ≡ field_among (seen_world heap.now world.now) depth (map (seen_field heap.now) fields.now) field }
    ensures lies { shape_reach result.shape ≤ length heap.now }
    ensures typed { AreTyped (map (seen_field heap.now) fields.now) → IsTyped (seen_shape heap.now result.shape) }
{
    let at = field as usize;
    if at < fields.len() {
        let shape = shape_at(fields, heap, at);
        LaidOut { depth, shape }
    } else {
        nowhere(world, heap, stobj)
    }
}

/// A field of an object in which so many may be nested, itself counted; of an abstract one that of its foundation.
#[cycle(nested)]
#[tactic(auto, using(crate::proofs::LaidLemmas::laid_nowhere, crate::proofs::LaidLemmas::laid_unknown, crate::proofs::LaidLemmas::laid_abstract, crate::proofs::LaidLemmas::laid_concrete, crate::proofs::LaidLemmas::laid_other, crate::proofs::FieldLemmas::fields_typed))]
fn laid_within(world: &World, heap: &Heap, depth: u32, stobj: SymId, field: u32) -> LaidOut
    requires { WorldLies heap.now world.now }
    ensures is { laid (seen_world heap.now world.now) result.depth (seen_shape heap.now result.shape) ≡ field_within (seen_world heap.now world.now) depth stobj.0 field }
    ensures lies { shape_reach result.shape ≤ length heap.now }
    ensures typed { AcceptsTypes (seen_world heap.now world.now) → IsTyped (seen_shape heap.now result.shape) }
{
    if depth == 0 {
        return nowhere(world, heap, stobj);
    }
    match definition_of(world, heap, stobj) {
        None => nowhere(world, heap, stobj),
        Some(definition) => match foundation_of(definition, heap) {
            Some(foundation) => laid_within(world, heap, depth - 1, foundation, field),
            None => match descriptor_of(definition, heap) {
                Some(descriptor) => {
                    let fields = descriptor.fields.as_slice();
                    among(world, heap, depth - 1, stobj, fields, field)
                }
                None => nowhere(world, heap, stobj),
            },
        },
    }
}

/// The field of this number of an object of the world.
#[tactic(auto, using(crate::proofs::LaidLemmas::laid_whole))]
pub fn laid_out(world: &World, heap: &Heap, stobj: SymId, field: u32) -> LaidOut
    requires { WorldLies heap.now world.now }
    ensures is { laid (seen_world heap.now world.now) result.depth (seen_shape heap.now result.shape) ≡ field_layout field (stobj_layout itself (seen_world heap.now world.now) stobj.0) }
    ensures lies { shape_reach result.shape ≤ length heap.now }
    ensures typed { AcceptsTypes (seen_world heap.now world.now) → IsTyped (seen_shape heap.now result.shape) }
{
    laid_within(world, heap, DEEPEST, stobj, field)
}
