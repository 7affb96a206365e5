//! The definition of a stobj, read as it is written.

ghost use Rattle.std.specs.Prelude.{◌≡◌, ◌≤◌, length, None, IfOk, IfErr, OnOk};
ghost use Rattle.model_stobjs.specs.Descriptors.{written_stobj, shaped_fields};
ghost use Rattle.acl_heap.specs.Objects.{object_of, Lies};
ghost use Rattle.acl_worlds.specs.Contents.{seen_world, WorldLies};
ghost use Rattle.acl_stobj_read.specs.Written.{seen_fields, fields_reach, seen_stobj, stobj_reach};
ghost use Rattle.acl_stobj_written.specs.Fields.{seen_shaped, shapes_reach};
ghost use Rattle.acl_stobj_written.specs.Read.{IsRead};
ghost use Rattle.acl_stobj_written.specs.Refusals.{RefusedBy, fields_refusal, written_refusal, fault_reach};

use crate::fault::StobjFault;
use crate::initials::bad_initial;
use crate::shaped::{ShapedField, shaped_fields};
use crate::stobjs::written_stobj;
use acl_base::Word;
use acl_heap::Heap;
use acl_stobj_read::{WrittenField, WrittenStobj, bad_name};
use acl_syms::Symbols;
use acl_worlds::World;
use sqlite_items::Items;
use std::alloc::Global;

/// A stobj as it is written, and its fields with their shapes.
#[derive(Debug, Drop)]
pub struct ReadStobj {
    pub written: WrittenStobj,
    pub fields: Items<ShapedField>,
}

/// Fields with their shapes. A fault is that of the first type that is not accepted, else of the first initial value that
/// does not meet its type.
#[tactic(auto, using(crate::proofs::RefusalLemmas::type_refused, crate::proofs::RefusalLemmas::initial_refused, crate::proofs::RefusalLemmas::fields_accepted))]
fn read_fields(
    alloc: Global,
    world: &World,
    heap: &Heap,
    fields: &[WrittenField],
) -> Result<Items<ShapedField>, StobjFault>
    requires fields { fields_reach fields.now ≤ length heap.now }
    requires world { WorldLies heap.now world.now }
    ensures ok { OnOk result (fields_refusal (seen_world heap.now world.now) (seen_fields heap.now fields.now) ≡ None) }
    ensures seen { IfOk result (λ r. shaped_fields (seen_world heap.now world.now) (seen_fields heap.now fields.now) ≡ seen_shaped heap.now r) }
    ensures reach { IfOk result (λ r. shapes_reach r ≤ length heap.now) }
    ensures err { IfErr result (RefusedBy heap.now (fields_refusal (seen_world heap.now world.now) (seen_fields heap.now fields.now))) }
    ensures lies { IfErr result (λ f. fault_reach f ≤ length heap.now) }
{
    let shaped = shaped_fields(alloc, world, heap, fields)?;
    match bad_initial(world, heap, shaped.as_slice())? {
        Some(name) => Err(StobjFault::BadInitial(name)),
        None => Ok(shaped),
    }
}

/// The stobj that stands behind the head `DEFSTOBJ`, or its first fault before a name is made. Nothing is made here.
#[tactic(auto, using(crate::proofs::RefusalLemmas::shape_refused, crate::proofs::RefusalLemmas::name_refused, crate::proofs::RefusalLemmas::fields_refused, crate::proofs::RefusalLemmas::accepted))]
pub fn read_written(
    alloc: Global,
    heap: &Heap,
    syms: &Symbols,
    world: &World,
    form: Word,
) -> Result<ReadStobj, StobjFault>
    requires form { Lies heap.now form }
    requires world { WorldLies heap.now world.now }
    ensures ok { IfOk result (λ r. IsRead (seen_world heap.now world.now) heap.now r (written_stobj (seen_world heap.now world.now) syms.now.symbols (object_of heap.now form))) }
    ensures accepted { OnOk result (written_refusal (seen_world heap.now world.now) syms.now.symbols (written_stobj (seen_world heap.now world.now) syms.now.symbols (object_of heap.now form)) ≡ None) }
    ensures err { IfErr result (RefusedBy heap.now (written_refusal (seen_world heap.now world.now) syms.now.symbols (written_stobj (seen_world heap.now world.now) syms.now.symbols (object_of heap.now form)))) }
    ensures lies { IfErr result (λ f. fault_reach f ≤ length heap.now) }
{
    let written = match written_stobj(alloc, heap, syms, world, form)? {
        None => return Err(StobjFault::BadShape),
        Some(written) => written,
    };
    match bad_name(heap, syms, &written) {
        Some(name) => Err(StobjFault::BadName(name)),
        None => {
            let fields = read_fields(alloc, world, heap, written.fields.as_slice())?;
            Ok(ReadStobj { written, fields })
        }
    }
}
