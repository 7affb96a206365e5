//! The draft of a macro.

ghost use Rattle.std.specs.Prelude.{◌≡◌, ◌≤◌, length, IfOk, IfErr, is_some};
ghost use Rattle.model_expansion.specs.Words.{defmacro_word};
ghost use Rattle.model_events.specs.Declarations.{formals_of, declarations};
ghost use Rattle.model_events.specs.Macros.{formal_objects, bad_declaration, written_fault};
ghost use Rattle.acl_heap.specs.Objects.{object_of, Lies, Extends};
ghost use Rattle.acl_worlds.specs.Contents.{seen_world};
ghost use Rattle.acl_declare.specs.Said.{words_at, words_reach};
ghost use Rattle.acl_drafts.specs.Refusals.{RefusedBy, fault_reach};
ghost use Rattle.acl_macros.specs.Written.{seen_formals, seen_macro, macro_reach};
ghost use Rattle.acl_macros.specs.Drafts.{draft_of, seen_draft, draft_reach, macro_refusal, ReadsDeclared, ReadsUnrefused, ReadsMacro};

use crate::draft::MacroDraft;
use crate::naming::macro_formals;
use crate::objects::{formal_words, symbols_among};
use crate::refusals::early_refusal;
use crate::shapes::written_macro;
use crate::written::WrittenMacro;
use acl_base::Word;
use acl_declare::declarations;
use acl_drafts::{DraftFault, symbol_or_nil};
use acl_heap::Heap;
use acl_syms::Symbols;
use acl_worlds::World;
use std::alloc::{AllocError, Global};

/// The draft of a macro that is not refused.
#[tactic(auto, using(crate::proofs::ReadingLemmas::draft_is))]
fn draft_of(alloc: Global, heap: &Heap, written: &WrittenMacro) -> Result<MacroDraft, AllocError>
    requires { macro_reach written.now ≤ length heap.now }
    ensures is { IfOk result (λ d. draft_of (seen_macro heap.now written.now) ≡ seen_draft heap.now d) }
    ensures lies { IfOk result (λ d. draft_reach d ≤ length heap.now) }
{
    let name = symbol_or_nil(heap, written.name);
    let formals = macro_formals(alloc, heap, &written.formals)?;
    Ok(MacroDraft {
        name,
        formals,
        body: written.body,
    })
}

/// Whether no declaration over these formals is wrong.
#[tactic(auto, using(crate::proofs::ReadingLemmas::none_said, crate::proofs::ReadingLemmas::some_said))]
fn are_declared(
    alloc: Global,
    heap: &mut Heap,
    syms: &Symbols,
    formals: &[Word],
    items: &[Word],
) -> Result<bool, AllocError>
    requires formals { words_reach formals.now ≤ length heap.old }
    requires items { words_reach items.now ≤ length heap.old }
    ensures grows { Extends heap.old heap.new }
    ensures is { IfOk result (λ b. is_some (declarations syms.now.symbols (formals_of syms.now.symbols (words_at heap.old formals.now)) (words_at heap.old items.now)) ≡ b) }
{
    let names = symbols_among(alloc, heap, syms, formals)?;
    match declarations(alloc, heap, syms, names.as_slice(), items) {
        Err(refused) => Err(refused),
        Ok(said) => match said {
            None => Ok(false),
            Some(_said) => Ok(true),
        },
    }
}

/// The draft of a macro of which all but the declarations is right.
#[tactic(auto, using(crate::proofs::ReadingLemmas::declared_right, crate::proofs::ReadingLemmas::declared_wrong))]
fn declared(
    alloc: Global,
    heap: &mut Heap,
    syms: &Symbols,
    written: &WrittenMacro,
    formals: &[Word],
) -> Result<MacroDraft, DraftFault>
    requires written { macro_reach written.now ≤ length heap.old }
    requires formals { words_reach formals.now ≤ length heap.old }
    requires are { words_at heap.old formals.now ≡ formal_objects (seen_formals heap.old written.now.formals) }
    ensures grows { Extends heap.old heap.new }
    ensures ok { IfOk result (λ d. ReadsDeclared syms.now.symbols (seen_macro heap.old written.now) heap.new d) }
    ensures err { IfErr result (λ f. RefusedBy heap.new defmacro_word (bad_declaration syms.now.symbols (seen_macro heap.old written.now)) f) }
    ensures lies { IfErr result (λ f. fault_reach f ≤ length heap.new) }
{
    match draft_of(alloc, heap, written) {
        Err(_refused) => Err(DraftFault::Memory),
        Ok(draft) => match are_declared(alloc, heap, syms, formals, written.items.as_slice()) {
            Err(_refused) => Err(DraftFault::Memory),
            Ok(right) => {
                if !right {
                    return Err(DraftFault::BadDeclare(draft.name));
                }
                Ok(draft)
            }
        },
    }
}

/// The draft of a macro as it is written and its formals in order, or the first refusal.
fn draft_with(
    alloc: Global,
    heap: &mut Heap,
    syms: &Symbols,
    world: &World,
    written: &WrittenMacro,
    formals: &[Word],
) -> Result<MacroDraft, DraftFault>
    requires written { macro_reach written.now ≤ length heap.old }
    requires formals { words_reach formals.now ≤ length heap.old }
    requires are { words_at heap.old formals.now ≡ formal_objects (seen_formals heap.old written.now.formals) }
    ensures grows { Extends heap.old heap.new }
    ensures ok { IfOk result (λ d. ReadsUnrefused (seen_world heap.old world.now) syms.now.symbols (seen_macro heap.old written.now) heap.new d) }
    ensures err { IfErr result (λ f. RefusedBy heap.new defmacro_word (written_fault syms.now.symbols (seen_world heap.old world.now) (seen_macro heap.old written.now)) f) }
    ensures lies { IfErr result (λ f. fault_reach f ≤ length heap.new) }
{
    match early_refusal(alloc, heap, syms, world, written.name, formals) {
        Err(_refused) => Err(DraftFault::Memory),
        Ok(refusal) => match refusal {
            Some(fault) => Err(fault),
            None => match declared(alloc, heap, syms, written, formals) {
                Err(fault) => Err(fault),
                Ok(draft) => Ok(draft),
            },
        },
    }
}

fn draft_from(
    alloc: Global,
    heap: &mut Heap,
    syms: &Symbols,
    world: &World,
    written: &WrittenMacro,
) -> Result<MacroDraft, DraftFault>
    requires { macro_reach written.now ≤ length heap.old }
    ensures grows { Extends heap.old heap.new }
    ensures ok { IfOk result (λ d. ReadsUnrefused (seen_world heap.old world.now) syms.now.symbols (seen_macro heap.old written.now) heap.new d) }
    ensures err { IfErr result (λ f. RefusedBy heap.new defmacro_word (written_fault syms.now.symbols (seen_world heap.old world.now) (seen_macro heap.old written.now)) f) }
    ensures lies { IfErr result (λ f. fault_reach f ≤ length heap.new) }
{
    match formal_words(alloc, heap, &written.formals) {
        Err(_refused) => Err(DraftFault::Memory),
        Ok(formals) => match draft_with(alloc, heap, syms, world, written, formals.as_slice()) {
            Err(fault) => Err(fault),
            Ok(draft) => Ok(draft),
        },
    }
}

/// The draft of the macro that stands behind the head `DEFMACRO`, or the first refusal. The heap only grows.
pub fn read_macro(
    alloc: Global,
    heap: &mut Heap,
    syms: &Symbols,
    world: &World,
    form: Word,
) -> Result<MacroDraft, DraftFault>
    requires { Lies heap.old form }
    ensures grows { Extends heap.old heap.new }
    ensures ok { IfOk result (λ d. ReadsMacro (seen_world heap.old world.now) syms.now.symbols (object_of heap.old form) heap.new d) }
    ensures err { IfErr result (λ f. RefusedBy heap.new defmacro_word (macro_refusal (seen_world heap.old world.now) syms.now.symbols (object_of heap.old form)) f) }
    ensures lies { IfErr result (λ f. fault_reach f ≤ length heap.new) }
{
    match written_macro(alloc, heap, form) {
        Err(_refused) => Err(DraftFault::Memory),
        Ok(read) => match read {
            None => Err(DraftFault::BadShape),
            Some(written) => match draft_from(alloc, heap, syms, world, &written) {
                Err(fault) => Err(fault),
                Ok(draft) => Ok(draft),
            },
        },
    }
}
