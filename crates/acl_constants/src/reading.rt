//! The draft of a constant.

ghost use Rattle.std.specs.Prelude.{◌≡◌, ◌≤◌, None, length, IfOk, IfErr};
ghost use Rattle.model_expansion.specs.Words.{defconst_word};
ghost use Rattle.acl_heap.specs.Objects.{object_of, Lies};
ghost use Rattle.acl_worlds.specs.Contents.{seen_world, number_of};
ghost use Rattle.acl_drafts.specs.Refusals.{RefusedBy, fault_reach};
ghost use Rattle.acl_constants.specs.Drafts.{name_refusal, constant_refusal, ReadsConstant};

use crate::draft::ConstantDraft;
use crate::naming::name_refusal;
use acl_base::Word;
use acl_drafts::{DraftFault, symbol_or_nil};
use acl_heap::Heap;
use acl_packages::name_and_form;
use acl_syms::Symbols;
use acl_worlds::World;
use std::alloc::Global;

/// The draft of the constant that stands behind the head `DEFCONST`, or the first refusal. Its name is none of the world's.
#[tactic(auto, using(crate::proofs::ReadingLemmas::refused_shape, crate::proofs::ReadingLemmas::refused_name, crate::proofs::ReadingLemmas::reads, crate::proofs::ReadingLemmas::fresh_name))]
pub fn read_constant(
    alloc: Global,
    heap: &Heap,
    syms: &Symbols,
    world: &World,
    form: Word,
) -> Result<ConstantDraft, DraftFault>
    requires { Lies heap.now form }
    ensures ok { IfOk result (λ d. ReadsConstant (seen_world heap.now world.now) syms.now.symbols (object_of heap.now form) heap.now d) }
    ensures fresh { IfOk result (λ d. number_of world.now d.name.0 ≡ None) }
    ensures err { IfErr result (λ f. RefusedBy heap.now defconst_word (constant_refusal (seen_world heap.now world.now) syms.now.symbols (object_of heap.now form)) f) }
    ensures lies { IfErr result (λ f. fault_reach f ≤ length heap.now) }
{
    match name_and_form(heap, form) {
        None => Err(DraftFault::BadShape),
        Some((name, form)) => match name_refusal(alloc, heap, syms, world, name) {
            Err(_refused) => Err(DraftFault::Memory),
            Ok(refusal) => match refusal {
                Some(fault) => Err(fault),
                None => Ok(ConstantDraft {
                    name: symbol_or_nil(heap, name),
                    form,
                }),
            },
        },
    }
}
