//! The drafts of a definition of functions.

ghost use Rattle.std.specs.Prelude.{◌≡◌, ◌≤◌, length, IfOk, IfErr};
ghost use Rattle.model_events.specs.Functions.{written_fault};
ghost use Rattle.acl_heap.specs.Objects.{object_of, Lies, Extends};
ghost use Rattle.acl_worlds.specs.Contents.{seen_world};
ghost use Rattle.acl_drafts.specs.Functions.{seen_functions, functions_reach};
ghost use Rattle.acl_drafts.specs.Refusals.{RefusedBy, ReadsUnrefused, ReadsDrafts, drafts_refusal, fault_reach};

use crate::draft::Draft;
use crate::drafts::drafts_of;
use crate::fault::DraftFault;
use crate::refusals::early_refusal;
use crate::shapes::written_functions;
use crate::written::WrittenFunction;
use acl_base::{SymId, Word};
use acl_heap::Heap;
use acl_syms::Symbols;
use acl_worlds::World;
use sqlite_items::Items;
use std::alloc::Global;

/// The drafts of functions as they are written, or the first refusal.
fn drafts_from(
    alloc: Global,
    heap: &mut Heap,
    syms: &Symbols,
    world: &World,
    head: SymId,
    functions: &[WrittenFunction],
) -> Result<Items<Draft>, DraftFault>
    requires { functions_reach functions.now ≤ length heap.old }
    ensures grows { Extends heap.old heap.new }
    ensures ok { IfOk result (λ ds. ReadsUnrefused (seen_world heap.old world.now) syms.now.symbols (seen_functions heap.old functions.now) heap.new ds) }
    ensures err { IfErr result (λ f. RefusedBy heap.new head.0 (written_fault syms.now.symbols (seen_world heap.old world.now) (seen_functions heap.old functions.now)) f) }
    ensures lies { IfErr result (λ f. fault_reach f ≤ length heap.new) }
{
    match early_refusal(alloc, heap, syms, world, head, functions) {
        Err(_refused) => Err(DraftFault::Memory),
        Ok(refusal) => match refusal {
            Some(fault) => Err(fault),
            None => match drafts_of(alloc, heap, syms, head, functions) {
                Err(fault) => Err(fault),
                Ok(drafts) => Ok(drafts),
            },
        },
    }
}

/// The drafts of what stands behind the head of a definition of functions, or the first refusal. The heap only grows.
pub fn read_drafts(
    alloc: Global,
    heap: &mut Heap,
    syms: &Symbols,
    world: &World,
    head: SymId,
    form: Word,
) -> Result<Items<Draft>, DraftFault>
    requires { Lies heap.old form }
    ensures grows { Extends heap.old heap.new }
    ensures ok { IfOk result (λ ds. ReadsDrafts (seen_world heap.old world.now) syms.now.symbols head.0 (object_of heap.old form) heap.new ds) }
    ensures err { IfErr result (λ f. RefusedBy heap.new head.0 (drafts_refusal (seen_world heap.old world.now) syms.now.symbols head.0 (object_of heap.old form)) f) }
    ensures lies { IfErr result (λ f. fault_reach f ≤ length heap.new) }
{
    match written_functions(alloc, heap, head, form) {
        Err(_refused) => Err(DraftFault::Memory),
        Ok(read) => match read {
            None => Err(DraftFault::BadShape),
            Some(functions) => match drafts_from(
                alloc,
                heap,
                syms,
                world,
                head,
                functions.as_slice(),
            ) {
                Err(fault) => Err(fault),
                Ok(drafts) => Ok(drafts),
            },
        },
    }
}
