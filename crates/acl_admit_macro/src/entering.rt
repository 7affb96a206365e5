//! A macro whose body is expanded enters a world.

ghost use Rattle.std.specs.Prelude.{◌≡◌, ◌∷◌, [], ◌<◌, ◌≤◌, ℕ, length, true, None, IfOk, IfErr, OnOk, OnErr};
ghost use Rattle.model_terms.specs.Faults.{macro_fault};
ghost use Rattle.model_stobjs.specs.Heads.{name_in_use};
ghost use Rattle.model_slots_laws.specs.Standing.{functions_stand};
ghost use Rattle.acl_terms.specs.Definitions.{seen_formals};
ghost use Rattle.acl_terms.specs.Forms.{seen_core};
ghost use Rattle.acl_terms.specs.declared.definition.Definition.TheVariants as definition;
ghost use Rattle.acl_worlds.specs.Contents.{seen_world, with_definition};
ghost use Rattle.acl_code.specs.Constants.{ConstantsAreKnown, FormIsKnown};
ghost use Rattle.acl_code.specs.Tables.{Grown, TermsLie};
ghost use Rattle.acl_check.specs.Says.{Says};
ghost use Rattle.acl_admit_macro.specs.Entered.{macro_of, expanded_reach, Enters};

use crate::expanded::ExpandedMacro;
use crate::ready::is_ready;
use acl_base::TermId;
use acl_code::Terms;
use acl_heap::Heap;
use acl_terms::{Definition, Macro, ThreadFault};
use acl_translate::translate_macro;
use acl_worlds::World;
use std::alloc::{AllocError, Global};

/// Puts a macro with a new name and its term last.
fn put(
    world: &mut World,
    _heap: &Heap,
    expanded: ExpandedMacro,
    body_term: TermId,
) -> Result<(), AllocError>
    requires fresh { name_in_use (seen_world _heap.now world.old) (expanded.name.0 ∷ []) ≡ None }
    ensures ok { OnOk result (world.new ≡ with_definition world.old (definition.Macro (macro_of expanded body_term))) }
    ensures err { OnErr result (world.new ≡ world.old) }
{
    world.is_world();
    let ExpandedMacro {
        name,
        formals,
        body,
    } = expanded;
    world.add(Definition::Macro(Macro {
        name,
        formals,
        body,
        body_term,
    }))?;
    Ok(())
}

/// A macro enters the world with the term of its body under its formals, where the rules accept it, and the term's number is
/// answered; else the first fault. A macro that is too large to be checked is answered as want of memory. At a fault and for
/// want of memory world and table are as they were.
#[tactic(auto, using(crate::proofs::EnterLemmas::ready_fits, crate::proofs::EnterLemmas::ready_room, crate::proofs::EnterLemmas::enters))]
pub fn enter_macro(
    alloc: Global,
    world: &mut World,
    terms: &mut Terms,
    heap: &Heap,
    expanded: ExpandedMacro,
) -> Result<TermId, ThreadFault>
    requires words { TermsLie heap.now terms.old }
    requires lies { expanded_reach expanded ≤ length heap.now }
    requires fresh { name_in_use (seen_world heap.now world.old) (expanded.name.0 ∷ []) ≡ None }
    requires stand { functions_stand (seen_world heap.now world.old) (seen_core heap.now expanded.body) ≡ true }
    ensures ok { IfOk result (λ t. Enters heap.now world.old world.new terms.new (macro_of expanded t)) }
    ensures err { IfErr result (Says (macro_fault (seen_world heap.now world.old) (seen_formals heap.now expanded.formals) (seen_core heap.now expanded.body))) }
    ensures unchanged { OnErr result (world.new ≡ world.old) }
    ensures table { OnErr result (terms.new ≡ terms.old) }
    ensures grows { Grown terms.old terms.new }
    ensures words { TermsLie heap.now terms.new }
    ensures known { (n : ℕ) → 1 < n → FormIsKnown n (seen_core heap.now expanded.body) → ConstantsAreKnown n heap.now terms.old → ConstantsAreKnown n heap.now terms.new }
{
    if !is_ready(alloc, heap, &expanded.formals, &expanded.body)? {
        return Err(ThreadFault::Memory);
    }
    let mark = terms.len();
    match translate_macro(alloc, terms, world, heap, &expanded.formals, &expanded.body) {
        Err(fault) => Err(fault),
        Ok(body_term) => match put(world, heap, expanded, body_term) {
            Ok(()) => Ok(body_term),
            Err(_refused) => {
                terms.cut_to(mark);
                Err(ThreadFault::Memory)
            }
        },
    }
}
