//! Which names may be given to constants.

ghost use Rattle.std.specs.Prelude.{◌≡◌, ◌≤◌, ◌∷◌, [], None, Some, length, IfOk, option_map, if◌then◌else◌};
ghost use Rattle.model_expansion.specs.Words.{defconst_word};
ghost use Rattle.model_expansion.specs.Faults.{BadName, NameInUse};
ghost use Rattle.model_expansion.specs.Forms.{symbol_or_nil};
ghost use Rattle.model_stobjs.specs.Heads.{name_in_use};
ghost use Rattle.model_events.specs.Constants.{bad_constant_name};
ghost use Rattle.acl_heap.specs.Objects.{object_of, Lies};
ghost use Rattle.acl_worlds.specs.Contents.{seen_world};
ghost use Rattle.acl_drafts.specs.Refusals.{FirstRefusal, option_fault_reach};
ghost use Rattle.acl_constants.specs.Drafts.{name_refusal};

use acl_base::{SymId, Word};
use acl_declare::name_in_use;
use acl_drafts::{DraftFault, has_stars, symbol_or_nil};
use acl_heap::{Heap, Seen};
use acl_syms::Symbols;
use acl_worlds::World;
use sqlite_items::Items;
use std::alloc::{AllocError, Global};

/// Whether it may name a constant: a symbol whose name begins and ends with a star.
#[tactic(auto, using(crate::proofs::NameLemmas::of_symbol, crate::proofs::NameLemmas::of_integer, crate::proofs::NameLemmas::of_text, crate::proofs::NameLemmas::of_pair))]
fn is_good_name(heap: &Heap, syms: &Symbols, name: Word) -> bool
    requires { Lies heap.now name }
    ensures { bad_constant_name syms.now.symbols (object_of heap.now name) ≡ (if result then None else Some (BadName (object_of heap.now name))) }
{
    match heap.look(name) {
        Seen::Symbol(s) => has_stars(syms, s),
        Seen::Integer(_) => false,
        Seen::Text(_) => false,
        Seen::Pair(_, _) => false,
    }
}

fn one_name(alloc: Global, name: SymId) -> Result<Items<SymId>, AllocError>
    ensures { IfOk result (λ names. names ≡ name ∷ []) }
{
    let mut names = Items::new(alloc);
    names.push(name)?;
    Ok(names)
}

/// The name, where it is in use.
#[tactic(auto, using(crate::proofs::NameLemmas::only_name))]
fn used_name(
    alloc: Global,
    heap: &Heap,
    world: &World,
    name: Word,
) -> Result<Option<SymId>, AllocError>
    requires { Lies heap.now name }
    ensures { IfOk result (λ r. name_in_use (seen_world heap.now world.now) (symbol_or_nil (object_of heap.now name) ∷ []) ≡ option_map (λ s. NameInUse s.0) r) }
{
    let names = one_name(alloc, symbol_or_nil(heap, name))?;
    let used = name_in_use(alloc, heap, world, names.as_slice())?;
    Ok(used)
}

/// The first refusal of a name.
#[tactic(auto, using(crate::proofs::NameLemmas::refused_bad, crate::proofs::NameLemmas::refused_used, crate::proofs::NameLemmas::not_refused))]
pub fn name_refusal(
    alloc: Global,
    heap: &Heap,
    syms: &Symbols,
    world: &World,
    name: Word,
) -> Result<Option<DraftFault>, AllocError>
    requires { Lies heap.now name }
    ensures is { IfOk result (λ r. FirstRefusal heap.now defconst_word r (name_refusal (seen_world heap.now world.now) syms.now.symbols (object_of heap.now name))) }
    ensures lies { IfOk result (λ r. option_fault_reach r ≤ length heap.now) }
{
    if !is_good_name(heap, syms, name) {
        return Ok(Some(DraftFault::BadName(name)));
    }
    match used_name(alloc, heap, world, name)? {
        Some(used) => Ok(Some(DraftFault::NameInUse(used))),
        None => Ok(None),
    }
}
