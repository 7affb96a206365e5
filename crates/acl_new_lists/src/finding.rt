//! What a world says of an object.

ghost use Rattle.std.specs.Prelude.{◌≡◌, ◌≤◌, ◌+◌, ◌-◌, ◌<◌, ◌∷◌, length, drop, option_map, IfSome};
ghost use Rattle.std.specs.Option.{option_copied};
ghost use Rattle.model_terms.specs.Worlds as worlds;
ghost use Rattle.model_terms.specs.Accessors.{descriptor_in};
ghost use Rattle.acl_terms.specs.Definitions.{seen_definition, seen_descriptor, definition_reach, descriptor_reach, shape_reach};
ghost use Rattle.acl_worlds.specs.Contents.{seen_world, WorldLies};
ghost use Rattle.acl_new_lists.specs.Begun.{foundation_in, FieldsLie};

use acl_base::SymId;
use acl_heap::Heap;
use acl_terms::{Definition, Descriptor, FieldDescriptor};
use acl_worlds::World;

/// The definition of a name.
#[tactic(auto, using(crate::proofs::FindLemmas::found_none, crate::proofs::FindLemmas::found_some, crate::proofs::FindLemmas::lies_at))]
pub(crate) fn definition_of<'a>(
    world: &'a World,
    heap: &Heap,
    name: SymId,
) -> Option<&'a Definition>
    requires { WorldLies heap.now world.now }
    ensures found { option_map (seen_definition heap.now) (option_copied result) ≡ worlds.definition (seen_world heap.now world.now) name.0 }
    ensures lies { IfSome result (λ d. definition_reach d.now ≤ length heap.now) }
{
    match world.find(name) {
        Some(f) => Some(world.at(f)),
        None => None,
    }
}

/// The foundation of an abstract object.
pub(crate) fn foundation_of(definition: &Definition, _heap: &Heap) -> Option<SymId>
    ensures { option_map (λ x. x.0) result ≡ foundation_in (seen_definition _heap.now definition.now) }
{
    match definition {
        Definition::Primitive { .. } => None,
        Definition::Function(_) => None,
        Definition::Macro(_) => None,
        Definition::Constant { .. } => None,
        Definition::Object { .. } => None,
        Definition::Generated(_) => None,
        Definition::Abstract(described) => Some(described.foundation),
        Definition::OfAbstract(_) => None,
        Definition::Named { .. } => None,
        Definition::Signed { .. } => None,
    }
}

/// A concrete object.
pub(crate) fn descriptor_of<'a>(definition: &'a Definition, _heap: &Heap) -> Option<&'a Descriptor>
    requires { definition_reach definition.now ≤ length _heap.now }
    ensures is { option_map (seen_descriptor _heap.now) (option_copied result) ≡ descriptor_in (seen_definition _heap.now definition.now) }
    ensures lies { IfSome result (λ d. descriptor_reach d.now ≤ length _heap.now) }
{
    match definition {
        Definition::Primitive { .. } => None,
        Definition::Function(_) => None,
        Definition::Macro(_) => None,
        Definition::Constant { .. } => None,
        Definition::Object { descriptor, .. } => Some(descriptor),
        Definition::Generated(_) => None,
        Definition::Abstract(_) => None,
        Definition::OfAbstract(_) => None,
        Definition::Named { .. } => None,
        Definition::Signed { .. } => None,
    }
}

/// The field before the last so many.
#[tactic(auto, using(crate::proofs::FindLemmas::one_before, crate::proofs::FindLemmas::field_lies))]
pub(crate) fn field_before<'a>(
    fields: &'a [FieldDescriptor],
    _heap: &Heap,
    done: usize,
) -> &'a FieldDescriptor
    requires lies { FieldsLie _heap.now fields.now }
    requires left { done < length fields.now }
    ensures is { drop (length fields.now - (done + 1)) fields.now ≡ result.now ∷ drop (length fields.now - done) fields.now }
    ensures lies { shape_reach result.now.shape ≤ length _heap.now }
{
    &fields[fields.len() - 1 - done]
}
