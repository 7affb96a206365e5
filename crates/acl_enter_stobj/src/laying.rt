//! The layout of a new stobj: every field is of the general kind.

ghost use Rattle.std.specs.Prelude.{◌≡◌, ◌++◌, ◌∷◌, [], map, IfOk, OnOk};
ghost use Rattle.acl_worlds.specs.Fields.{fields_of};
ghost use Rattle.acl_enter_stobj.specs.Laid.{layout_in, layout_number, field_laid, fields_laid};

use acl_base::{Field, Kind, Layout, LayoutId, SymId};
use acl_terms::{Definition, FieldDescriptor, Shape};
use acl_worlds::World;
use std::alloc::{AllocError, Global};

fn layout_in(definition: &Definition) -> LayoutId
    ensures { result ≡ layout_in definition.now }
{
    match definition {
        Definition::Primitive { .. } => LayoutId(0),
        Definition::Function(_) => LayoutId(0),
        Definition::Macro(_) => LayoutId(0),
        Definition::Constant { .. } => LayoutId(0),
        Definition::Object { layout, .. } => *layout,
        Definition::Generated(_) => LayoutId(0),
        Definition::Abstract(_) => LayoutId(0),
        Definition::OfAbstract(_) => LayoutId(0),
        Definition::Named { .. } => LayoutId(0),
        Definition::Signed { .. } => LayoutId(0),
    }
}

/// The layout of a concrete stobj that stands.
#[tactic(auto, using(crate::proofs::LaidLemmas::number_there, crate::proofs::LaidLemmas::number_nowhere))]
fn layout_number(world: &World, stobj: SymId) -> LayoutId
    ensures { result ≡ layout_number world.now stobj.0 }
{
    match world.find(stobj) {
        Some(f) => layout_in(world.at(f)),
        None => LayoutId(0),
    }
}

fn field_laid(world: &World, shape: Shape) -> Field
    ensures { result ≡ field_laid world.now shape }
{
    match shape {
        Shape::Scalar { initial, .. } => Field::Scalar(Kind::General, initial),
        Shape::Array {
            initial,
            len,
            resizable,
            ..
        } => Field::Array(Kind::General, initial, len, resizable),
        Shape::Hash(test) => Field::Hash(test),
        Shape::Child(stobj) => Field::Child(layout_number(world, stobj)),
        Shape::Children { stobj, len } => Field::Children(layout_number(world, stobj), len),
    }
}

fn push_field(all: &mut Vec<Field>, field: Field) -> Result<(), AllocError>
    ensures { OnOk result (all.new.items ≡ all.old.items ++ field ∷ []) }
{
    all.push(field)?;
    Ok(())
}

/// The layout of these fields.
#[tactic(auto, using(crate::proofs::LaidLemmas::laid_start, crate::proofs::LaidLemmas::laid_more, crate::proofs::LaidLemmas::laid_end))]
pub(crate) fn laid(
    alloc: Global,
    world: &World,
    fields: &[FieldDescriptor],
) -> Result<Layout, AllocError>
    ensures { IfOk result (λ l. fields_of l ≡ fields_laid world.now fields.now) }
{
    let mut all = Vec::new(alloc);
    let mut rest = fields;
    'fields: while let Some((field, others)) = rest.split_first() {
        push_field(&mut all, field_laid(world, field.shape))?;
        rest = others;
    }
    Ok(Layout { fields: all })
}
