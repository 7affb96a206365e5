//! What a world says of the names of stobjs.

ghost use Rattle.std.specs.Prelude.{◌≡◌, Some, None};
ghost use Rattle.model_terms.specs.Classes.{class_in, class_of, is_stobj_name, congruent};
ghost use Rattle.model_terms.specs.Scopes.{name_kind};
ghost use Rattle.acl_terms.specs.Definitions.{seen_definition};
ghost use Rattle.acl_terms.specs.Signatures.{seen_name, seen_out};
ghost use Rattle.acl_worlds.specs.Contents.{seen_world};

use acl_base::SymId;
use acl_heap::Heap;
use acl_terms::{Definition, Out};
use acl_worlds::World;

/// The congruence class of an object. An abstract object is alone in its own.
fn class_in(definition: &Definition, _heap: &Heap) -> Option<SymId>
    ensures { seen_name result ≡ class_in (seen_definition _heap.now definition.now) }
{
    match definition {
        Definition::Primitive { .. } => None,
        Definition::Function(_) => None,
        Definition::Macro(_) => None,
        Definition::Constant { .. } => None,
        Definition::Object { class, .. } => Some(*class),
        Definition::Generated(_) => None,
        Definition::Abstract(descriptor) => Some(descriptor.name),
        Definition::OfAbstract(_) => None,
        Definition::Named { .. } => None,
        Definition::Signed { .. } => None,
    }
}

/// The congruence class of the object of this name: its first object. None where the name is no object's.
pub fn class_of(world: &World, heap: &Heap, name: SymId) -> Option<SymId>
    ensures { seen_name result ≡ class_of (seen_world heap.now world.now) name.0 }
{
    match world.look(name, heap) {
        Some(definition) => class_in(definition, heap),
        None => None,
    }
}

/// Whether the name is an object's.
pub fn is_stobj_name(world: &World, heap: &Heap, name: SymId) -> bool
    ensures { result ≡ is_stobj_name (seen_world heap.now world.now) name.0 }
{
    match class_of(world, heap, name) {
        Some(_) => true,
        None => false,
    }
}

/// Whether both names are of stobjs of one congruence class. It takes no memory.
pub fn congruent(world: &World, heap: &Heap, a: SymId, b: SymId) -> bool
    ensures { result ≡ congruent (seen_world heap.now world.now) a.0 b.0 }
{
    match class_of(world, heap, a) {
        None => false,
        Some(first) => match class_of(world, heap, b) {
            None => false,
            Some(second) => first.0 == second.0,
        },
    }
}

/// The kind of a name that is bound: an object's name stands for that object.
pub fn name_kind(world: &World, heap: &Heap, name: SymId) -> Out
    ensures { seen_out result ≡ name_kind (seen_world heap.now world.now) name.0 }
{
    if is_stobj_name(world, heap, name) {
        Out::Object(name)
    } else {
        Out::Ordinary
    }
}
