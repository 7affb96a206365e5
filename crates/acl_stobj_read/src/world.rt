//! What a world says of names.

ghost use Rattle.std.specs.Prelude.{◌≡◌, ◌≤◌, length, option_map, IfSome};
ghost use Rattle.std.specs.Option.{option_copied};
ghost use Rattle.model_terms.specs.Worlds as worlds;
ghost use Rattle.model_terms.specs.Accessors.{descriptor_in, descriptor_of};
ghost use Rattle.model_stobjs.specs.Descriptors.{constant_in};
ghost use Rattle.acl_heap.specs.Objects.{object_of};
ghost use Rattle.acl_terms.specs.Definitions.{seen_definition, seen_descriptor, definition_reach, descriptor_reach};
ghost use Rattle.acl_worlds.specs.Contents.{seen_world, WorldLies};
ghost use Rattle.acl_layers.specs.Lists.{option_reach};

use acl_base::{SymId, Word};
use acl_heap::Heap;
use acl_terms::{Definition, Descriptor};
use acl_worlds::World;

/// The definition of a name.
#[tactic(auto, using(crate::proofs::WorldLemmas::found_none, crate::proofs::WorldLemmas::found_some, crate::proofs::WorldLemmas::lies_at))]
fn definition_of<'a>(world: &'a World, heap: &Heap, name: SymId) -> Option<&'a Definition>
    requires { WorldLies heap.now world.now }
    ensures found { worlds.definition (seen_world heap.now world.now) name.0 ≡ option_map (seen_definition heap.now) (option_copied result) }
    ensures lies { IfSome result (λ d. definition_reach d.now ≤ length heap.now) }
{
    match world.find(name) {
        Some(f) => Some(world.at(f)),
        None => None,
    }
}

fn descriptor_in<'a>(definition: &'a Definition, _heap: &Heap) -> Option<&'a Descriptor>
    requires { definition_reach definition.now ≤ length _heap.now }
    ensures is { descriptor_in (seen_definition _heap.now definition.now) ≡ option_map (seen_descriptor _heap.now) (option_copied result) }
    ensures lies { IfSome result (λ d. descriptor_reach d.now ≤ length _heap.now) }
{
    match definition {
        Definition::Primitive { .. } => None,
        Definition::Function(_) => None,
        Definition::Macro(_) => None,
        Definition::Constant { .. } => None,
        Definition::Object { descriptor, .. } => Some(descriptor),
        Definition::Generated(_) => None,
        Definition::Abstract(_) => None,
        Definition::OfAbstract(_) => None,
        Definition::Named { .. } => None,
        Definition::Signed { .. } => None,
    }
}

/// The descriptor of a concrete stobj.
#[tactic(auto, using(crate::proofs::WorldLemmas::descriptor_none, crate::proofs::WorldLemmas::descriptor_some))]
pub fn descriptor_of<'a>(world: &'a World, heap: &Heap, name: SymId) -> Option<&'a Descriptor>
    requires { WorldLies heap.now world.now }
    ensures is { descriptor_of (seen_world heap.now world.now) name.0 ≡ option_map (seen_descriptor heap.now) (option_copied result) }
    ensures lies { IfSome result (λ d. descriptor_reach d.now ≤ length heap.now) }
{
    match definition_of(world, heap, name) {
        None => None,
        Some(definition) => descriptor_in(definition, heap),
    }
}

fn value_in(definition: &Definition, _heap: &Heap) -> Option<Word>
    requires { definition_reach definition.now ≤ length _heap.now }
    ensures is { constant_in (Some (seen_definition _heap.now definition.now)) ≡ option_map (object_of _heap.now) result }
    ensures lies { option_reach result ≤ length _heap.now }
{
    match definition {
        Definition::Primitive { .. } => None,
        Definition::Function(_) => None,
        Definition::Macro(_) => None,
        Definition::Constant { value, .. } => Some(*value),
        Definition::Object { .. } => None,
        Definition::Generated(_) => None,
        Definition::Abstract(_) => None,
        Definition::OfAbstract(_) => None,
        Definition::Named { .. } => None,
        Definition::Signed { .. } => None,
    }
}

/// The value of a constant.
#[tactic(auto, using(crate::proofs::WorldLemmas::constant_none, crate::proofs::WorldLemmas::constant_some))]
pub fn constant_of(world: &World, heap: &Heap, name: SymId) -> Option<Word>
    requires { WorldLies heap.now world.now }
    ensures is { constant_in (worlds.definition (seen_world heap.now world.now) name.0) ≡ option_map (object_of heap.now) result }
    ensures lies { option_reach result ≤ length heap.now }
{
    match definition_of(world, heap, name) {
        None => None,
        Some(definition) => value_in(definition, heap),
    }
}
