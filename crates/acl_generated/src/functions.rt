//! All functions of a stobj.

ghost use Rattle.std.specs.Prelude.{◌≡◌, map, IfOk};
ghost use Rattle.model_stobjs.specs.Entries.{generated_functions};
ghost use Rattle.acl_terms.specs.Definitions.{seen_descriptor, seen_generated};

use crate::building::{generated, push_function};
use crate::fields::add_fields;
use crate::tasks::{creator, recognizer};
use acl_heap::Heap;
use acl_terms::{Descriptor, GeneratedFunction};
use std::alloc::{AllocError, Global};

/// The functions that a stobj comes with, in their order.
#[tactic(auto, using(crate::proofs::FunctionLemmas::all_functions))]
pub fn generated_functions(
    alloc: Global,
    heap: &Heap,
    descriptor: &Descriptor,
) -> Result<Vec<GeneratedFunction>, AllocError>
    ensures { IfOk result (λ fs. map seen_generated fs.items ≡ generated_functions (seen_descriptor heap.now descriptor.now)) }
{
    let stobj = descriptor.name;
    let mut all = Vec::new(alloc);
    let first = generated(
        alloc,
        descriptor.recognizer,
        stobj,
        stobj,
        None,
        recognizer(stobj),
    )?;
    push_function(&mut all, first)?;
    let second = generated(
        alloc,
        descriptor.creator,
        stobj,
        stobj,
        None,
        creator(stobj),
    )?;
    push_function(&mut all, second)?;
    add_fields(alloc, heap, &mut all, stobj, descriptor.fields.as_slice())?;
    Ok(all)
}
