//! The first refusal before declarations are read.

ghost use Rattle.std.specs.Prelude.{◌≡◌, ◌≤◌, ◌∷◌, [], length, IfOk, option_map};
ghost use Rattle.model_expansion.specs.Words.{defmacro_word};
ghost use Rattle.model_expansion.specs.Faults.{NameInUse};
ghost use Rattle.model_expansion.specs.Forms.{symbol_or_nil};
ghost use Rattle.model_stobjs.specs.Heads.{name_in_use};
ghost use Rattle.model_events.specs.Declarations.{formals_fault};
ghost use Rattle.acl_heap.specs.Objects.{object_of, Lies};
ghost use Rattle.acl_terms.specs.Forms.{numbers};
ghost use Rattle.acl_worlds.specs.Contents.{seen_world};
ghost use Rattle.acl_declare.specs.Said.{words_at, words_reach};
ghost use Rattle.acl_drafts.specs.Refusals.{FirstRefusal, option_fault_reach};
ghost use Rattle.acl_macros.specs.Drafts.{early_refusal};

use crate::objects::formals_fault;
use acl_base::{SymId, Word};
use acl_declare::{FormalFault, name_in_use};
use acl_drafts::{DraftFault, is_good_name, symbol_or_nil};
use acl_heap::Heap;
use acl_syms::Symbols;
use acl_worlds::World;
use sqlite_items::Items;
use std::alloc::{AllocError, Global};

fn one_name(alloc: Global, name: SymId) -> Result<Items<SymId>, AllocError>
    ensures { IfOk result (λ names. names ≡ name ∷ []) }
{
    let mut names = Items::new(alloc);
    names.push(name)?;
    Ok(names)
}

/// The name, where it is in use.
#[tactic(auto, using(crate::proofs::RefusalLemmas::only_name))]
fn used_name(
    alloc: Global,
    heap: &Heap,
    world: &World,
    name: Word,
) -> Result<Option<SymId>, AllocError>
    requires { Lies heap.now name }
    ensures { IfOk result (λ r. name_in_use (seen_world heap.now world.now) (symbol_or_nil (object_of heap.now name) ∷ []) ≡ option_map (λ s. NameInUse s.0) r) }
{
    let names = one_name(alloc, symbol_or_nil(heap, name))?;
    let used = name_in_use(alloc, heap, world, names.as_slice())?;
    Ok(used)
}

#[tactic(auto, using(acl_drafts::proofs::RefusalLemmas::given_name, acl_drafts::proofs::RefusalLemmas::given_twice, acl_drafts::proofs::RefusalLemmas::given_lies))]
fn formal_refusal(
    alloc: Global,
    heap: &Heap,
    syms: &Symbols,
    formals: &[Word],
) -> Result<Option<DraftFault>, AllocError>
    requires { words_reach formals.now ≤ length heap.now }
    ensures is { IfOk result (λ r. FirstRefusal heap.now defmacro_word r (formals_fault syms.now.symbols (words_at heap.now formals.now))) }
    ensures lies { IfOk result (λ r. option_fault_reach r ≤ length heap.now) }
{
    match formals_fault(alloc, heap, syms, formals)? {
        None => Ok(None),
        Some(fault) => match fault {
            FormalFault::BadName(x) => Ok(Some(DraftFault::BadName(x))),
            FormalFault::DuplicateFormal(s) => Ok(Some(DraftFault::DuplicateFormal(s))),
        },
    }
}

/// The first refusal of the name, then of formals.
#[tactic(auto, using(crate::proofs::RefusalLemmas::early_name, crate::proofs::RefusalLemmas::early_used, crate::proofs::RefusalLemmas::early_formals))]
pub fn early_refusal(
    alloc: Global,
    heap: &Heap,
    syms: &Symbols,
    world: &World,
    name: Word,
    formals: &[Word],
) -> Result<Option<DraftFault>, AllocError>
    requires name { Lies heap.now name }
    requires formals { words_reach formals.now ≤ length heap.now }
    ensures is { IfOk result (λ r. FirstRefusal heap.now defmacro_word r (early_refusal (seen_world heap.now world.now) syms.now.symbols (object_of heap.now name) (words_at heap.now formals.now))) }
    ensures lies { IfOk result (λ r. option_fault_reach r ≤ length heap.now) }
{
    if !is_good_name(heap, syms, name) {
        return Ok(Some(DraftFault::BadName(name)));
    }
    match used_name(alloc, heap, world, name)? {
        Some(used) => Ok(Some(DraftFault::NameInUse(used))),
        None => match formal_refusal(alloc, heap, syms, formals) {
            Err(refused) => Err(refused),
            Ok(refusal) => Ok(refusal),
        },
    }
}
