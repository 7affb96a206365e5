//! The accessors of fields that hold objects.

ghost use Rattle.std.specs.Prelude.{◌≡◌, Some, None, slice_get, option_map, option_and_then};
ghost use Rattle.model_terms.specs.Worlds as worlds;
ghost use Rattle.model_terms.specs.Accessors.{descriptor_in, held_by, held_in, accessor_to, accessor_in, child_accessor};
ghost use Rattle.model_terms.specs.declared.role.Role.TheVariants as role;
ghost use Rattle.acl_terms.specs.Definitions.{seen_shape, seen_definition, seen_generated};
ghost use Rattle.acl_worlds.specs.Contents.{seen_world};
ghost use Rattle.acl_nest.specs.Accessors.{seen_holds, seen_accessor};

use acl_base::SymId;
use acl_heap::Heap;
use acl_terms::{Definition, GeneratedFunction, Role, Shape};
use acl_worlds::World;

/// What a field that holds objects holds: one, or an array of them, each congruent to the object of this name.
#[derive(Clone, Copy, Debug)]
pub enum HeldStobjs {
    One(SymId),
    Many(SymId),
}

/// The accessor of a field that holds objects.
#[derive(Clone, Copy, Debug)]
pub struct ChildAccessor {
    /// The object that has the field.
    pub stobj: SymId,
    /// The number of the field.
    pub field: u32,
    pub holds: HeldStobjs,
}

fn held_by(shape: Shape, _heap: &Heap) -> Option<HeldStobjs>
    ensures { option_map seen_holds result ≡ held_by (seen_shape _heap.now shape) }
{
    match shape {
        Shape::Scalar { .. } => None,
        Shape::Array { .. } => None,
        Shape::Hash(_) => None,
        Shape::Child(stobj) => Some(HeldStobjs::One(stobj)),
        Shape::Children { stobj, .. } => Some(HeldStobjs::Many(stobj)),
    }
}

/// What a field of an object holds, where it holds objects.
#[tactic(auto, using(crate::proofs::AccessorLemmas::held_there, crate::proofs::AccessorLemmas::held_nowhere))]
fn held_at(definition: &Definition, field: u32, heap: &Heap) -> Option<HeldStobjs>
    ensures { option_map seen_holds result ≡ option_and_then (λ (e : worlds.Field). held_by e.shape) (option_and_then (λ (d : worlds.Descriptor). slice_get d.fields field) (descriptor_in (seen_definition heap.now definition.now))) }
{
    match definition {
        Definition::Primitive { .. } => None,
        Definition::Function(_) => None,
        Definition::Macro(_) => None,
        Definition::Constant { .. } => None,
        Definition::Object { descriptor, .. } => match descriptor.fields.get(field as usize) {
            Some(described) => held_by(described.shape, heap),
            None => None,
        },
        Definition::Generated(_) => None,
        Definition::Abstract(_) => None,
        Definition::OfAbstract(_) => None,
        Definition::Named { .. } => None,
        Definition::Signed { .. } => None,
    }
}

/// What the field of a function holds, where it is a function of one and the field holds objects.
pub fn held_in(world: &World, heap: &Heap, function: &GeneratedFunction) -> Option<HeldStobjs>
    ensures { option_map seen_holds result ≡ held_in (seen_world heap.now world.now) (seen_generated function.now) }
{
    match function.field {
        None => None,
        Some(field) => match world.look(function.stobj, heap) {
            None => None,
            Some(definition) => held_at(definition, field, heap),
        },
    }
}

fn accessed(world: &World, heap: &Heap, function: &GeneratedFunction) -> Option<ChildAccessor>
    ensures { option_map seen_accessor result ≡ accessor_to (seen_generated function.now) role.Access function.now.field (held_in (seen_world heap.now world.now) (seen_generated function.now)) }
{
    match function.field {
        None => None,
        Some(field) => match held_in(world, heap, function) {
            None => None,
            Some(holds) => Some(ChildAccessor {
                stobj: function.stobj,
                field,
                holds,
            }),
        },
    }
}

fn accessor_to(world: &World, heap: &Heap, function: &GeneratedFunction) -> Option<ChildAccessor>
    ensures { option_map seen_accessor result ≡ accessor_in (seen_world heap.now world.now) (worlds.Generated (seen_generated function.now)) }
{
    match function.role {
        Role::Recognizer => None,
        Role::Creator => None,
        Role::FieldRecognizer => None,
        Role::Access => accessed(world, heap, function),
        Role::Update => None,
        Role::Length => None,
        Role::Resize => None,
        Role::HashGet => None,
        Role::HashBoundp => None,
        Role::HashGetBound => None,
        Role::HashPut => None,
        Role::HashRem => None,
        Role::HashCount => None,
        Role::HashClear => None,
    }
}

fn accessor_in(world: &World, heap: &Heap, definition: &Definition) -> Option<ChildAccessor>
    ensures { option_map seen_accessor result ≡ accessor_in (seen_world heap.now world.now) (seen_definition heap.now definition.now) }
{
    match definition {
        Definition::Primitive { .. } => None,
        Definition::Function(_) => None,
        Definition::Macro(_) => None,
        Definition::Constant { .. } => None,
        Definition::Object { .. } => None,
        Definition::Generated(function) => accessor_to(world, heap, function),
        Definition::Abstract(_) => None,
        Definition::OfAbstract(_) => None,
        Definition::Named { .. } => None,
        Definition::Signed { .. } => None,
    }
}

/// The accessor of a child that a function is. It takes two look-ups and no memory.
pub fn child_accessor(world: &World, heap: &Heap, name: SymId) -> Option<ChildAccessor>
    ensures { option_map seen_accessor result ≡ child_accessor (seen_world heap.now world.now) name.0 }
{
    match world.look(name, heap) {
        Some(definition) => accessor_in(world, heap, definition),
        None => None,
    }
}
