//! What a world says of an object.

ghost use Rattle.std.specs.Prelude.{◌≡◌, ◌≤◌, ◌<◌, length, map, Some, option_map, IfSome, slice_get};
ghost use Rattle.std.specs.Option.{option_copied};
ghost use Rattle.model_terms.specs.Worlds as worlds;
ghost use Rattle.model_terms.specs.Accessors.{descriptor_in};
ghost use Rattle.acl_terms.specs.Definitions.{seen_definition, seen_descriptor, seen_shape, seen_field, definition_reach, descriptor_reach, shape_reach};
ghost use Rattle.acl_worlds.specs.Contents.{seen_world, WorldLies};
ghost use Rattle.acl_new_lists.specs.Begun.{foundation_in, FieldsLie};
ghost use Rattle.acl_layouts.specs.Typed.{IsTyped, AreTyped};

use acl_base::SymId;
use acl_heap::Heap;
use acl_terms::{Definition, Descriptor, FieldDescriptor, Shape};
use acl_worlds::World;

/// The definition of a name.
#[tactic(auto, using(acl_new_lists::proofs::FindLemmas::found_none, acl_new_lists::proofs::FindLemmas::found_some, acl_new_lists::proofs::FindLemmas::lies_at))]
pub(crate) fn definition_of<'a>(
    world: &'a World,
    heap: &Heap,
    name: SymId,
) -> Option<&'a Definition>
    requires { WorldLies heap.now world.now }
    ensures found { option_map (seen_definition heap.now) (option_copied result) ≡ worlds.definition (seen_world heap.now world.now) name.0 }
    ensures lies { IfSome result (λ d. definition_reach d.now ≤ length heap.now) }
{
    match world.find(name) {
        Some(f) => Some(world.at(f)),
        None => None,
    }
}

/// The foundation of an abstract object.
pub(crate) fn foundation_of(definition: &Definition, _heap: &Heap) -> Option<SymId>
    ensures { option_map (λ x. x.0) result ≡ foundation_in (seen_definition _heap.now definition.now) }
{
    match definition {
        Definition::Primitive { .. } => None,
        Definition::Function(_) => None,
        Definition::Macro(_) => None,
        Definition::Constant { .. } => None,
        Definition::Object { .. } => None,
        Definition::Generated(_) => None,
        Definition::Abstract(described) => Some(described.foundation),
        Definition::OfAbstract(_) => None,
        Definition::Named { .. } => None,
        Definition::Signed { .. } => None,
    }
}

/// A concrete object.
pub(crate) fn descriptor_of<'a>(definition: &'a Definition, _heap: &Heap) -> Option<&'a Descriptor>
    requires { definition_reach definition.now ≤ length _heap.now }
    ensures is { option_map (seen_descriptor _heap.now) (option_copied result) ≡ descriptor_in (seen_definition _heap.now definition.now) }
    ensures lies { IfSome result (λ d. descriptor_reach d.now ≤ length _heap.now) }
{
    match definition {
        Definition::Primitive { .. } => None,
        Definition::Function(_) => None,
        Definition::Macro(_) => None,
        Definition::Constant { .. } => None,
        Definition::Object { descriptor, .. } => Some(descriptor),
        Definition::Generated(_) => None,
        Definition::Abstract(_) => None,
        Definition::OfAbstract(_) => None,
        Definition::Named { .. } => None,
        Definition::Signed { .. } => None,
    }
}

/// The field of a place.
fn field_at(fields: &[FieldDescriptor], at: usize) -> &FieldDescriptor
    requires { at < length fields.now }
    ensures { slice_get fields.now at ≡ Some result.now }
{
    &fields[at]
}

/// The shape of a field.
#[tactic(auto, using(crate::proofs::FieldLemmas::shape_there, crate::proofs::FieldLemmas::shape_lies, crate::proofs::FieldLemmas::shape_typed))]
pub(crate) fn shape_at(fields: &[FieldDescriptor], _heap: &Heap, at: usize) -> Shape
    requires lies { FieldsLie _heap.now fields.now }
    requires there { at < length fields.now }
    ensures is { slice_get (map (λ (f : worlds.Field). f.shape) (map (seen_field _heap.now) fields.now)) at ≡ Some (seen_shape _heap.now result) }
    ensures lies { shape_reach result ≤ length _heap.now }
    ensures typed { AreTyped (map (seen_field _heap.now) fields.now) → IsTyped (seen_shape _heap.now result) }
{
    let field = field_at(fields, at);
    field.shape
}
