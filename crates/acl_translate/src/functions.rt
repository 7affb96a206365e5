//! Functions that are admitted together, and macros, with their terms.

ghost use Rattle.std.specs.Prelude.{◌≡◌, ◌<◌, ◌≤◌, ℕ, ◌^◌, length, true, Some, None, is_some, IfOk, IfErr, OnOk, OnErr};
ghost use Rattle.std.specs.List.{All};
ghost use Rattle.model_terms.specs.Faults.{clique_fault, formal_names, macro_fault};
ghost use Rattle.acl_terms.specs.Definitions.{seen_formals};
ghost use Rattle.acl_terms.specs.Forms.{seen_core};
ghost use Rattle.acl_worlds.specs.Contents.{seen_world};
ghost use Rattle.acl_code.specs.Constants.{ConstantsAreKnown, FormIsKnown};
ghost use Rattle.acl_code.specs.Sizes as code;
ghost use Rattle.acl_code.specs.Tables.{Grown, TermsLie, IsBuilt};
ghost use Rattle.acl_thread.specs.Sizes as thread;
ghost use Rattle.acl_terms.specs.declared.fault.ThreadFault.TheVariants.{Memory};
ghost use Rattle.acl_check.specs.Members.{seen_member, seen_members, FitsMember};
ghost use Rattle.acl_check.specs.Says.{Says};
ghost use Rattle.model_slots_laws.specs.Standing.{functions_stand};
ghost use Rattle.acl_translate.specs.Functions.{formal_tree, function_trees, all_function_trees, HasRoom, FunctionsStand, HasTrees, IsFunction, AreFunctions, MemberIsKnown};

use crate::building::build_tree;
use crate::function_terms::FunctionTerms;
use acl_base::TermId;
use acl_check::{Member, check_clique, check_macro, formal_names};
use acl_code::Terms;
use acl_heap::Heap;
use acl_terms::{Core, MacroFormals, ThreadFault};
use acl_worlds::World;
use sqlite_items::Items;
use std::alloc::{AllocError, Global};

/// The terms of a function whose guard and body have trees. For want of memory the term of its guard may stand last.
#[tactic(auto, using(crate::proofs::FunctionLemmas::function_built))]
fn build_function(
    alloc: Global,
    terms: &mut Terms,
    world: &World,
    heap: &Heap,
    member: &Member,
) -> Result<FunctionTerms, AllocError>
    requires words { TermsLie heap.now terms.old }
    requires room { HasRoom heap.now member.now }
    requires trees { HasTrees heap.now (seen_world heap.now world.now) member.now }
    ensures built { IfOk result (λ f. IsFunction heap.now terms.new f (function_trees (seen_world heap.now world.now) (seen_member heap.now member.now))) }
    ensures grows { Grown terms.old terms.new }
    ensures words { TermsLie heap.now terms.new }
    ensures known { (n : ℕ) → 1 < n → MemberIsKnown n heap.now member.now → ConstantsAreKnown n heap.now terms.old → ConstantsAreKnown n heap.now terms.new }
{
    let formals = member.formals.as_slice();
    let guard = build_tree(alloc, terms, world, heap, formals, &member.guard)?;
    let body = build_tree(alloc, terms, world, heap, formals, &member.body)?;
    Ok(FunctionTerms { guard, body })
}

/// The terms of functions whose guards and bodies have trees. For want of memory terms of some may stand last.
#[tactic(auto, using(crate::proofs::FunctionLemmas::functions_start, crate::proofs::FunctionLemmas::functions_step, crate::proofs::FunctionLemmas::functions_end))]
fn build_functions(
    alloc: Global,
    terms: &mut Terms,
    world: &World,
    heap: &Heap,
    members: &[Member],
) -> Result<Items<FunctionTerms>, AllocError>
    requires words { TermsLie heap.now terms.old }
    requires room { All (HasRoom heap.now) members.now }
    requires trees { All (HasTrees heap.now (seen_world heap.now world.now)) members.now }
    ensures built { IfOk result (λ r. AreFunctions heap.now terms.new r (all_function_trees (seen_world heap.now world.now) (seen_members heap.now members.now))) }
    ensures grows { Grown terms.old terms.new }
    ensures words { TermsLie heap.now terms.new }
    ensures known { (n : ℕ) → 1 < n → All (MemberIsKnown n heap.now) members.now → ConstantsAreKnown n heap.now terms.old → ConstantsAreKnown n heap.now terms.new }
{
    let mut found = Items::new(alloc);
    for member in members {
        let function = build_function(alloc, terms, world, heap, member)?;
        found.push(function)?;
    }
    Ok(found)
}

/// The terms of functions whose guards and bodies have trees, or want of memory, and then the table is as it was.
fn build_clique(
    alloc: Global,
    terms: &mut Terms,
    world: &World,
    heap: &Heap,
    members: &[Member],
) -> Result<Items<FunctionTerms>, ThreadFault>
    requires words { TermsLie heap.now terms.old }
    requires room { All (HasRoom heap.now) members.now }
    requires trees { All (HasTrees heap.now (seen_world heap.now world.now)) members.now }
    ensures built { IfOk result (λ r. AreFunctions heap.now terms.new r (all_function_trees (seen_world heap.now world.now) (seen_members heap.now members.now))) }
    ensures err { IfErr result (λ e. e ≡ Memory) }
    ensures unchanged { OnErr result (terms.new ≡ terms.old) }
    ensures grows { Grown terms.old terms.new }
    ensures words { TermsLie heap.now terms.new }
    ensures known { (n : ℕ) → 1 < n → All (MemberIsKnown n heap.now) members.now → ConstantsAreKnown n heap.now terms.old → ConstantsAreKnown n heap.now terms.new }
{
    let mark = terms.len();
    match build_functions(alloc, terms, world, heap, members) {
        Ok(functions) => Ok(functions),
        Err(_) => {
            terms.cut_to(mark);
            Err(ThreadFault::Memory)
        }
    }
}

/// The terms of functions that are admitted together and stand in the world with their signatures, those of each guard and
/// body under its formals, in the order of the functions, where no rule fails at one; else the first fault, the number of
/// its function first in its place. At a fault and for want of memory the table is as it was.
#[tactic(auto, using(crate::proofs::FunctionLemmas::clique_there))]
pub fn translate_clique(
    alloc: Global,
    terms: &mut Terms,
    world: &World,
    heap: &Heap,
    members: &[Member],
) -> Result<Items<FunctionTerms>, ThreadFault>
    requires words { TermsLie heap.now terms.old }
    requires few { length members.now ≤ 2 ^ 32 }
    requires fit { All (FitsMember heap.now) members.now }
    requires room { All (HasRoom heap.now) members.now }
    requires stand { All (FunctionsStand heap.now (seen_world heap.now world.now)) members.now }
    ensures accepted { OnOk result (clique_fault (seen_world heap.now world.now) 0 (seen_members heap.now members.now) ≡ None) }
    ensures built { IfOk result (λ r. AreFunctions heap.now terms.new r (all_function_trees (seen_world heap.now world.now) (seen_members heap.now members.now))) }
    ensures err { IfErr result (λ e. Says (clique_fault (seen_world heap.now world.now) 0 (seen_members heap.now members.now)) e) }
    ensures unchanged { OnErr result (terms.new ≡ terms.old) }
    ensures grows { Grown terms.old terms.new }
    ensures words { TermsLie heap.now terms.new }
    ensures known { (n : ℕ) → 1 < n → All (MemberIsKnown n heap.now) members.now → ConstantsAreKnown n heap.now terms.old → ConstantsAreKnown n heap.now terms.new }
{
    match check_clique(alloc, world, heap, members) {
        Ok(()) => match build_clique(alloc, terms, world, heap, members) {
            Ok(functions) => Ok(functions),
            Err(fault) => Err(fault),
        },
        Err(fault) => Err(fault),
    }
}

/// The term of a macro's body under its formals, where it has a tree. A refused one leaves the table as it was.
#[tactic(auto, using(crate::proofs::FunctionLemmas::macro_fits, crate::proofs::FunctionLemmas::macro_named, crate::proofs::FunctionLemmas::macro_built))]
fn build_macro(
    alloc: Global,
    terms: &mut Terms,
    world: &World,
    heap: &Heap,
    formals: &MacroFormals,
    body: &Core,
) -> Result<TermId, AllocError>
    requires words { TermsLie heap.now terms.old }
    requires fits { code.Fits heap.now (length (formal_names (seen_formals heap.now formals.now))) body.now }
    requires tree { is_some (formal_tree (seen_world heap.now world.now) (formal_names (seen_formals heap.now formals.now)) (seen_core heap.now body.now)) ≡ true }
    ensures built { IfOk result (λ t. IsBuilt heap.now terms.new (Some t) (formal_tree (seen_world heap.now world.now) (formal_names (seen_formals heap.now formals.now)) (seen_core heap.now body.now))) }
    ensures err { OnErr result (terms.new ≡ terms.old) }
    ensures grows { Grown terms.old terms.new }
    ensures words { TermsLie heap.now terms.new }
    ensures known { (n : ℕ) → 1 < n → FormIsKnown n (seen_core heap.now body.now) → ConstantsAreKnown n heap.now terms.old → ConstantsAreKnown n heap.now terms.new }
{
    let names = formal_names(alloc, heap, formals)?;
    match build_tree(alloc, terms, world, heap, names.as_slice(), body) {
        Ok(term) => Ok(term),
        Err(e) => Err(e),
    }
}

/// The term of a macro's body under its formals, those behind one another as a call's actuals come, where no rule fails at
/// the macro; else its first fault. At a fault and for want of memory the table is as it was.
pub fn translate_macro(
    alloc: Global,
    terms: &mut Terms,
    world: &World,
    heap: &Heap,
    formals: &MacroFormals,
    body: &Core,
) -> Result<TermId, ThreadFault>
    requires words { TermsLie heap.now terms.old }
    requires fits { code.Fits heap.now (length (formal_names (seen_formals heap.now formals.now))) body.now }
    requires wide { thread.Fits heap.now body.now }
    requires stand { functions_stand (seen_world heap.now world.now) (seen_core heap.now body.now) ≡ true }
    ensures accepted { OnOk result (macro_fault (seen_world heap.now world.now) (seen_formals heap.now formals.now) (seen_core heap.now body.now) ≡ None) }
    ensures built { IfOk result (λ t. IsBuilt heap.now terms.new (Some t) (formal_tree (seen_world heap.now world.now) (formal_names (seen_formals heap.now formals.now)) (seen_core heap.now body.now))) }
    ensures err { IfErr result (λ e. Says (macro_fault (seen_world heap.now world.now) (seen_formals heap.now formals.now) (seen_core heap.now body.now)) e) }
    ensures unchanged { OnErr result (terms.new ≡ terms.old) }
    ensures grows { Grown terms.old terms.new }
    ensures words { TermsLie heap.now terms.new }
    ensures known { (n : ℕ) → 1 < n → FormIsKnown n (seen_core heap.now body.now) → ConstantsAreKnown n heap.now terms.old → ConstantsAreKnown n heap.now terms.new }
{
    match check_macro(alloc, world, heap, formals, body) {
        Ok(()) => match build_macro(alloc, terms, world, heap, formals, body) {
            Ok(term) => Ok(term),
            Err(_) => Err(ThreadFault::Memory),
        },
        Err(fault) => Err(fault),
    }
}
