//! Why a stobj whose names were made is refused.

ghost use Rattle.std.specs.Prelude.{◌≡◌, ◌≤◌, ◌++◌, length, None, IfOk, IfErr, OnOk};
ghost use Rattle.model_stobjs.specs.Descriptors.{new_names};
ghost use Rattle.acl_terms.specs.Definitions.{seen_descriptor, descriptor_reach};
ghost use Rattle.acl_terms.specs.Forms.{numbers};
ghost use Rattle.acl_worlds.specs.Contents.{seen_world, WorldLies};
ghost use Rattle.acl_stobj_written.specs.Refusals.{RefusedBy, fault_reach};
ghost use Rattle.acl_stobj.specs.Outcomes.{named_refusal};
ghost use Rattle.acl_stobj.specs.MadeFields.{names_in};

use crate::congruence::mismatch;
use crate::in_use::first_in_use;
use acl_base::SymId;
use acl_heap::Heap;
use acl_stobj_written::StobjFault;
use acl_terms::{Descriptor, FieldDescriptor};
use acl_worlds::World;
use sqlite_items::Items;
use std::alloc::{AllocError, Global};

#[tactic(auto, using(crate::proofs::RefusalLemmas::pushed, crate::proofs::RefusalLemmas::all_pushed))]
fn push_all(names: &mut Items<SymId>, more: &[SymId]) -> Result<(), AllocError>
    ensures { OnOk result (names.new ≡ names.old ++ more.now) }
{
    let mut rest = more;
    'names: while let Some((name, others)) = rest.split_first() {
        names.push(*name)?;
        rest = others;
    }
    Ok(())
}

#[tactic(auto, using(crate::proofs::RefusalLemmas::field_pushed, crate::proofs::RefusalLemmas::fields_pushed, crate::proofs::RefusalLemmas::numbers_both))]
fn push_made(names: &mut Items<SymId>, fields: &[FieldDescriptor]) -> Result<(), AllocError>
    ensures { OnOk result (numbers names.new ≡ numbers names.old ++ names_in fields.now) }
{
    let mut rest = fields;
    'fields: while let Some((field, others)) = rest.split_first() {
        push_all(names, field.made.as_slice())?;
        rest = others;
    }
    Ok(())
}

/// The names that a stobj brings.
#[tactic(auto, using(crate::proofs::RefusalLemmas::names_are))]
fn new_names(
    alloc: Global,
    _heap: &Heap,
    descriptor: &Descriptor,
) -> Result<Items<SymId>, AllocError>
    ensures { IfOk result (λ names. numbers names ≡ new_names (seen_descriptor _heap.now descriptor.now)) }
{
    let own = [descriptor.name, descriptor.recognizer, descriptor.creator];
    let mut names = Items::from_slice(alloc, &own)?;
    push_made(&mut names, descriptor.fields.as_slice())?;
    Ok(names)
}

/// A fault where a name is in use or comes again, else where the stobj is not congruent to the one that it is to be.
#[tactic(auto, using(crate::proofs::RefusalLemmas::used, crate::proofs::RefusalLemmas::differs, crate::proofs::RefusalLemmas::accepted))]
pub fn refused(
    alloc: Global,
    world: &World,
    heap: &Heap,
    descriptor: &Descriptor,
) -> Result<(), StobjFault>
    requires descriptor { descriptor_reach descriptor.now ≤ length heap.now }
    requires world { WorldLies heap.now world.now }
    ensures ok { OnOk result (named_refusal (seen_world heap.now world.now) (seen_descriptor heap.now descriptor.now) ≡ None) }
    ensures err { IfErr result (RefusedBy heap.now (named_refusal (seen_world heap.now world.now) (seen_descriptor heap.now descriptor.now))) }
    ensures lies { IfErr result (λ f. fault_reach f ≤ length heap.now) }
{
    let names = new_names(alloc, heap, descriptor)?;
    match first_in_use(alloc, world, heap, names.as_slice())? {
        Some(name) => Err(StobjFault::NameInUse(name)),
        None => match mismatch(world, heap, descriptor)? {
            Some(place) => Err(StobjFault::CongruenceMismatch(place)),
            None => Ok(()),
        },
    }
}
