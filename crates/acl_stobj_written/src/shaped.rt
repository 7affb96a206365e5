//! Fields with the shapes that their types give them.

ghost use Rattle.std.specs.Prelude.{◌≡◌, ◌≤◌, ◌∷◌, [], ◌++◌, length, None, IfOk, IfErr, OnOk};
ghost use Rattle.model_stobjs.specs.Answers.{first_given};
ghost use Rattle.model_stobjs.specs.Descriptors.{bad_type, shaped_fields, shape_of};
ghost use Rattle.acl_worlds.specs.Contents.{seen_world, WorldLies};
ghost use Rattle.acl_terms.specs.Definitions.{seen_shape};
ghost use Rattle.acl_stobj_read.specs.Written.{seen_fields, fields_reach};
ghost use Rattle.acl_stobj_written.specs.Fields.{seen_shaped, shapes_reach, written_of, AreShaped};
ghost use Rattle.acl_stobj_written.specs.Refusals.{RefusedBy, fault_reach};
ghost use Rattle.acl_stobj_written.specs.Shaping.{Shapes};

use crate::fault::StobjFault;
use acl_heap::Heap;
use acl_stobj_read::{WrittenField, shape_of};
use acl_terms::Shape;
use acl_worlds::World;
use sqlite_items::Items;
use std::alloc::{AllocError, Global};

/// A field with the shape that its type gives it.
#[derive(Clone, Copy, Debug)]
pub struct ShapedField {
    pub written: WrittenField,
    pub shape: Shape,
}

fn push_shaped(all: &mut Items<ShapedField>, field: ShapedField) -> Result<(), AllocError>
    ensures { OnOk result (all.new ≡ all.old ++ field ∷ []) }
{
    all.push(field)?;
    Ok(())
}

/// Fields with their shapes; a fault is that of the first whose type is not accepted.
#[tactic(auto, using(crate::proofs::ShapedLemmas::starts, crate::proofs::ShapedLemmas::next_shaped, crate::proofs::ShapedLemmas::all_shaped, crate::proofs::ShapedLemmas::bad_there))]
pub fn shaped_fields(
    alloc: Global,
    world: &World,
    heap: &Heap,
    fields: &[WrittenField],
) -> Result<Items<ShapedField>, StobjFault>
    requires fields { fields_reach fields.now ≤ length heap.now }
    requires world { WorldLies heap.now world.now }
    ensures ok { IfOk result (λ r. Shapes (seen_world heap.now world.now) heap.now r fields.now) }
    ensures err { IfErr result (RefusedBy heap.now (first_given (bad_type (seen_world heap.now world.now)) (seen_fields heap.now fields.now))) }
    ensures lies { IfErr result (λ f. fault_reach f ≤ length heap.now) }
{
    let mut found = Items::new(alloc);
    let mut rest = fields;
    'fields: while let Some((field, others)) = rest.split_first() {
        match shape_of(alloc, world, heap, field)? {
            None => return Err(StobjFault::BadType(field.name)),
            Some(shape) => push_shaped(
                &mut found,
                ShapedField {
                    written: *field,
                    shape,
                },
            )?,
        }
        rest = others;
    }
    Ok(found)
}
