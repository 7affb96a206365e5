//! Functions whose formals and declarations are read.

ghost use Rattle.std.specs.Prelude.{◌≡◌, ◌≤◌, ◌∷◌, ◌++◌, [], length, max, Some, None, IfOk, IfErr, OnOk, if◌then◌else◌};
ghost use Rattle.model_stobjs.specs.Answers.{first_given};
ghost use Rattle.model_events.specs.Functions.{draft_of, bad_declaration};
ghost use Rattle.acl_heap.specs.Objects.{object_of, Lies, Extends};
ghost use Rattle.acl_drafts.specs.Functions.{seen_function, seen_functions, function_reach, functions_reach};
ghost use Rattle.acl_drafts.specs.Drafts.{seen_draft, seen_drafts, draft_reach, drafts_reach, SeenDraft, with_draft};
ghost use Rattle.acl_drafts.specs.Refusals.{RefusedBy, ReadsFunctions, fault_reach};

use crate::draft::Draft;
use crate::fault::DraftFault;
use crate::refusals::symbol_or_nil;
use crate::written::WrittenFunction;
use acl_base::SymId;
use acl_declare::{declarations, read_formals};
use acl_heap::Heap;
use acl_syms::Symbols;
use sqlite_items::Items;
use std::alloc::{AllocError, Global};

/// The draft of a function. None where a declaration is wrong.
#[tactic(auto, using(crate::proofs::DraftLemmas::draft_none, crate::proofs::DraftLemmas::draft_is))]
fn draft(
    alloc: Global,
    heap: &mut Heap,
    syms: &Symbols,
    function: &WrittenFunction,
) -> Result<Option<Draft>, AllocError>
    requires { function_reach function.now ≤ length heap.old }
    ensures grows { Extends heap.old heap.new }
    ensures ok { IfOk result (λ d. SeenDraft heap.new d (draft_of syms.now.symbols (seen_function heap.old function.now))) }
{
    let name = symbol_or_nil(heap, function.name);
    let formals = read_formals(alloc, heap, syms, function.formals)?;
    match declarations(
        alloc,
        heap,
        syms,
        formals.as_slice(),
        function.items.as_slice(),
    )? {
        None => Ok(None),
        Some(declared) => Ok(Some(Draft {
            name,
            formals,
            declared,
            body: function.body,
            executable: function.executable,
        })),
    }
}

#[tactic(auto, using(crate::proofs::DraftLemmas::draft_pushed, crate::proofs::DraftLemmas::reach_pushed))]
fn push_draft(_heap: &Heap, drafts: &mut Items<Draft>, draft: Draft) -> Result<(), AllocError>
    ensures at { OnOk result (seen_drafts _heap.now drafts.new ≡ seen_drafts _heap.now drafts.old ++ seen_draft _heap.now draft ∷ []) }
    ensures reach { OnOk result (drafts_reach drafts.new ≡ max (drafts_reach drafts.old) (draft_reach draft)) }
{
    drafts.push(draft)?;
    Ok(())
}

/// Puts the draft of a function last. False where a declaration is wrong.
#[tactic(auto, using(crate::proofs::DraftLemmas::none_added, crate::proofs::DraftLemmas::one_added, crate::proofs::DraftLemmas::drafts_later))]
fn add_draft(
    alloc: Global,
    heap: &mut Heap,
    syms: &Symbols,
    drafts: &mut Items<Draft>,
    function: &WrittenFunction,
) -> Result<bool, AllocError>
    requires function { function_reach function.now ≤ length heap.old }
    requires drafts { drafts_reach drafts.old ≤ length heap.old }
    ensures grows { Extends heap.old heap.new }
    ensures is { IfOk result (λ b. with_draft (seen_drafts heap.old drafts.old) (draft_of syms.now.symbols (seen_function heap.old function.now)) ≡ (if b then Some (seen_drafts heap.new drafts.new) else None)) }
    ensures reach { OnOk result (drafts_reach drafts.new ≤ length heap.new) }
{
    match draft(alloc, heap, syms, function)? {
        None => Ok(false),
        Some(draft) => {
            push_draft(heap, drafts, draft)?;
            Ok(true)
        }
    }
}

/// The drafts of functions, or the first of which a declaration is wrong.
#[tactic(auto, using(crate::proofs::DraftLemmas::function_lies, crate::proofs::DraftLemmas::name_lies_later))]
pub fn drafts_of(
    alloc: Global,
    heap: &mut Heap,
    syms: &Symbols,
    _head: SymId,
    functions: &[WrittenFunction],
) -> Result<Items<Draft>, DraftFault>
    requires { functions_reach functions.now ≤ length heap.old }
    ensures grows { Extends heap.old heap.new }
    ensures ok { IfOk result (λ ds. ReadsFunctions syms.now.symbols (seen_functions heap.old functions.now) heap.new ds) }
    ensures err { IfErr result (λ f. RefusedBy heap.new _head.0 (first_given (bad_declaration syms.now.symbols) (seen_functions heap.old functions.now)) f) }
    ensures lies { IfErr result (λ f. fault_reach f ≤ length heap.new) }
{
    let mut drafts = Items::new(alloc);
    let mut rest = functions;
    'functions: while let Some((function, others)) = rest.split_first() {
        let name = symbol_or_nil(heap, function.name);
        match add_draft(alloc, heap, syms, &mut drafts, function) {
            Err(_refused) => return Err(DraftFault::Memory),
            Ok(added) => {
                if !added {
                    return Err(DraftFault::BadDeclare(name));
                }
            }
        }
        rest = others;
    }
    Ok(drafts)
}
