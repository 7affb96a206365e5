//! The first refusal before declarations are read.

ghost use Rattle.std.specs.Prelude.{◌≡◌, ◌≤◌, length, IfOk, option_map};
ghost use Rattle.model_expansion.specs.Faults.{BadName, NameInUse};
ghost use Rattle.model_expansion.specs.Forms.{symbol_or_nil};
ghost use Rattle.model_stobjs.specs.Heads.{bad_name, name_in_use};
ghost use Rattle.acl_heap.specs.Objects.{object_of, Lies};
ghost use Rattle.acl_terms.specs.Forms.{numbers};
ghost use Rattle.acl_worlds.specs.Contents.{seen_world};
ghost use Rattle.acl_layers.specs.Lists.{option_reach};
ghost use Rattle.acl_declare.specs.Formals.{SeenFault};
ghost use Rattle.acl_drafts.specs.Functions.{seen_functions, functions_reach};
ghost use Rattle.acl_drafts.specs.Names.{names_at, numbers_at};
ghost use Rattle.acl_drafts.specs.Refusals.{FirstRefusal, formals_refusal, early_refusal, option_fault_reach};

use crate::fault::DraftFault;
use crate::names::is_good_name;
use crate::words;
use crate::written::WrittenFunction;
use acl_base::{SymId, Word};
use acl_declare::{FormalFault, formals_fault, name_in_use};
use acl_heap::{Heap, Seen};
use acl_syms::Symbols;
use acl_worlds::World;
use sqlite_items::Items;
use std::alloc::{AllocError, Global};

/// The symbol that it is, `NIL` where it is none.
pub fn symbol_or_nil(heap: &Heap, x: Word) -> SymId
    requires { Lies heap.now x }
    ensures { symbol_or_nil (object_of heap.now x) ≡ result.0 }
{
    match heap.look(x) {
        Seen::Symbol(s) => s,
        Seen::Integer(_) => SymId(words::NIL),
        Seen::Text(_) => SymId(words::NIL),
        Seen::Pair(_, _) => SymId(words::NIL),
    }
}

/// The first name that may not be given.
#[tactic(auto, using(crate::proofs::RefusalLemmas::name_good, crate::proofs::RefusalLemmas::name_bad, crate::proofs::RefusalLemmas::name_end, crate::proofs::RefusalLemmas::name_lies, crate::proofs::RefusalLemmas::others_lie))]
fn bad_name(heap: &Heap, syms: &Symbols, functions: &[WrittenFunction]) -> Option<Word>
    requires { functions_reach functions.now ≤ length heap.now }
    ensures is { bad_name syms.now.symbols (names_at heap.now functions.now) ≡ option_map (λ x. BadName (object_of heap.now x)) result }
    ensures lies { option_reach result ≤ length heap.now }
{
    let mut rest = functions;
    'functions: while let Some((function, others)) = rest.split_first() {
        if !is_good_name(heap, syms, function.name) {
            return Some(function.name);
        }
        rest = others;
    }
    None
}

/// The names of functions.
#[tactic(auto, using(crate::proofs::RefusalLemmas::numbers_more, crate::proofs::RefusalLemmas::numbers_end, acl_layers::proofs::BindingLemmas::numbers_push, crate::proofs::RefusalLemmas::name_lies, crate::proofs::RefusalLemmas::others_lie))]
fn names_of(
    alloc: Global,
    heap: &Heap,
    functions: &[WrittenFunction],
) -> Result<Items<SymId>, AllocError>
    requires { functions_reach functions.now ≤ length heap.now }
    ensures { IfOk result (λ xs. numbers xs ≡ numbers_at heap.now functions.now) }
{
    let mut names = Items::new(alloc);
    let mut rest = functions;
    'functions: while let Some((function, others)) = rest.split_first() {
        names.push(symbol_or_nil(heap, function.name))?;
        rest = others;
    }
    Ok(names)
}

/// The first name that is in use, or that comes again.
fn used_name(
    alloc: Global,
    heap: &Heap,
    world: &World,
    functions: &[WrittenFunction],
) -> Result<Option<SymId>, AllocError>
    requires { functions_reach functions.now ≤ length heap.now }
    ensures { IfOk result (λ r. name_in_use (seen_world heap.now world.now) (numbers_at heap.now functions.now) ≡ option_map (λ s. NameInUse s.0) r) }
{
    let names = names_of(alloc, heap, functions)?;
    let used = name_in_use(alloc, heap, world, names.as_slice())?;
    Ok(used)
}

/// The first fault of formals.
#[tactic(auto, using(crate::proofs::RefusalLemmas::formals_right, crate::proofs::RefusalLemmas::formals_wrong, crate::proofs::RefusalLemmas::formals_end, crate::proofs::RefusalLemmas::formals_lie, crate::proofs::RefusalLemmas::others_lie))]
fn formals_of_all(
    alloc: Global,
    heap: &Heap,
    syms: &Symbols,
    functions: &[WrittenFunction],
) -> Result<Option<FormalFault>, AllocError>
    requires { functions_reach functions.now ≤ length heap.now }
    ensures { IfOk result (λ r. SeenFault heap.now r (formals_refusal syms.now.symbols (seen_functions heap.now functions.now))) }
{
    let mut rest = functions;
    'functions: while let Some((function, others)) = rest.split_first() {
        match formals_fault(alloc, heap, syms, function.formals)? {
            Some(fault) => return Ok(Some(fault)),
            None => {}
        }
        rest = others;
    }
    Ok(None)
}

#[tactic(auto, using(crate::proofs::RefusalLemmas::given_name, crate::proofs::RefusalLemmas::given_twice, crate::proofs::RefusalLemmas::given_lies))]
fn formal_refusal(
    alloc: Global,
    heap: &Heap,
    syms: &Symbols,
    _head: SymId,
    functions: &[WrittenFunction],
) -> Result<Option<DraftFault>, AllocError>
    requires { functions_reach functions.now ≤ length heap.now }
    ensures is { IfOk result (λ r. FirstRefusal heap.now _head.0 r (formals_refusal syms.now.symbols (seen_functions heap.now functions.now))) }
    ensures lies { IfOk result (λ r. option_fault_reach r ≤ length heap.now) }
{
    match formals_of_all(alloc, heap, syms, functions)? {
        None => Ok(None),
        Some(fault) => match fault {
            FormalFault::BadName(x) => Ok(Some(DraftFault::BadName(x))),
            FormalFault::DuplicateFormal(s) => Ok(Some(DraftFault::DuplicateFormal(s))),
        },
    }
}

/// The first refusal of names, then of formals.
#[tactic(auto, using(crate::proofs::RefusalLemmas::early_name, crate::proofs::RefusalLemmas::early_used))]
pub fn early_refusal(
    alloc: Global,
    heap: &Heap,
    syms: &Symbols,
    world: &World,
    head: SymId,
    functions: &[WrittenFunction],
) -> Result<Option<DraftFault>, AllocError>
    requires { functions_reach functions.now ≤ length heap.now }
    ensures is { IfOk result (λ r. FirstRefusal heap.now head.0 r (early_refusal (seen_world heap.now world.now) syms.now.symbols (seen_functions heap.now functions.now))) }
    ensures lies { IfOk result (λ r. option_fault_reach r ≤ length heap.now) }
{
    if let Some(name) = bad_name(heap, syms, functions) {
        return Ok(Some(DraftFault::BadName(name)));
    }
    match used_name(alloc, heap, world, functions)? {
        Some(name) => Ok(Some(DraftFault::NameInUse(name))),
        None => match formal_refusal(alloc, heap, syms, head, functions) {
            Err(refused) => Err(refused),
            Ok(refusal) => Ok(refusal),
        },
    }
}
