//! Whether initial values meet the types of their fields.

ghost use Rattle.std.specs.Prelude.{◌≡◌, ◌≤◌, length, option_map, IfOk};
ghost use Rattle.model_expansion.specs.Faults.{BadInitial};
ghost use Rattle.model_stobjs.specs.Answers.{first_given};
ghost use Rattle.model_stobjs.specs.Descriptors.{has_good_initial, bad_initial};
ghost use Rattle.acl_heap.specs.Objects.{object_of, Lies};
ghost use Rattle.acl_terms.specs.Definitions.{seen_shape, shape_reach};
ghost use Rattle.acl_worlds.specs.Contents.{seen_world};
ghost use Rattle.acl_stobj_read.specs.Written.{seen_written, seen_fields};
ghost use Rattle.acl_stobj_written.specs.Fields.{written_of, shapes_reach, AreShaped};
ghost use Rattle.acl_stobj_written.specs.Initials.{meets_accepted};

use crate::shaped::ShapedField;
use acl_base::{SymId, Word};
use acl_heap::Heap;
use acl_meets::meets;
use acl_terms::Shape;
use acl_types::is_type;
use acl_worlds::World;
use std::alloc::AllocError;

/// Whether an object meets a type as it is written; none meets one that is not accepted.
#[tactic(auto, using(crate::proofs::InitialLemmas::met, crate::proofs::InitialLemmas::no_type))]
fn meets_written(heap: &Heap, spec: Word, x: Word) -> Result<bool, AllocError>
    requires spec { Lies heap.now spec }
    requires object { Lies heap.now x }
    ensures { IfOk result (λ b. b ≡ meets_accepted (object_of heap.now spec) (object_of heap.now x)) }
{
    if !is_type(heap, spec) {
        return Ok(false);
    }
    let holds = meets(heap, spec, x)?;
    Ok(holds)
}

/// Whether a field has no bad initial value.
fn has_good_initial(_world: &World, heap: &Heap, field: &ShapedField) -> Result<bool, AllocError>
    requires { shape_reach field.now.shape ≤ length heap.now }
    ensures { IfOk result (λ b. b ≡ has_good_initial (seen_world heap.now _world.now) (seen_written heap.now field.now.written) (seen_shape heap.now field.now.shape)) }
{
    match field.shape {
        Shape::Scalar { spec, initial } => {
            let holds = meets_written(heap, spec, initial)?;
            Ok(holds)
        }
        Shape::Array {
            spec,
            initial,
            len: _,
            resizable: _,
        } => {
            let holds = meets_written(heap, spec, initial)?;
            Ok(holds)
        }
        Shape::Hash(_) => Ok(field.written.initial.is_none()),
        Shape::Child(_) => Ok(field.written.initial.is_none()),
        Shape::Children { stobj: _, len: _ } => Ok(field.written.initial.is_none()),
    }
}

/// The first field whose initial value does not meet its type.
#[tactic(auto, using(crate::proofs::InitialLemmas::good, crate::proofs::InitialLemmas::bad, crate::proofs::InitialLemmas::ended, crate::proofs::InitialLemmas::first_lies, crate::proofs::InitialLemmas::others_lie, crate::proofs::InitialLemmas::others_shaped))]
pub fn bad_initial(
    world: &World,
    heap: &Heap,
    fields: &[ShapedField],
) -> Result<Option<SymId>, AllocError>
    requires shaped { AreShaped (seen_world heap.now world.now) heap.now fields.now }
    requires reach { shapes_reach fields.now ≤ length heap.now }
    ensures { IfOk result (λ r. first_given (bad_initial (seen_world heap.now world.now)) (seen_fields heap.now (written_of fields.now)) ≡ option_map (λ s. BadInitial s.0) r) }
{
    let mut rest = fields;
    'fields: while let Some((field, others)) = rest.split_first() {
        if !has_good_initial(world, heap, field)? {
            return Ok(Some(field.written.name));
        }
        rest = others;
    }
    Ok(None)
}
