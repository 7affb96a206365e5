//! The descriptor of what stands behind the head `DEFSTOBJ`.

ghost use Rattle.std.specs.Prelude.{◌≡◌, ◌≤◌, length, Some, IfOk, IfErr};
ghost use Rattle.model_objects.specs.Named.{Knows};
ghost use Rattle.model_symbols.specs.Growth.{Extends};
ghost use Rattle.model_stobjs.specs.Descriptors.{written_stobj};
ghost use Rattle.acl_heap.specs.Objects.{object_of, Lies};
ghost use Rattle.acl_terms.specs.Definitions.{seen_descriptor, descriptor_reach};
ghost use Rattle.acl_worlds.specs.Contents.{seen_world, WorldLies};
ghost use Rattle.acl_stobj_written.specs.Refusals.{Told, fault_reach};
ghost use Rattle.acl_stobj.specs.Outcomes.{Grants, Refuses, OnlyNames};
ghost use Rattle.acl_stobj.specs.Accepted.{Accepts};

use crate::describing::describe;
use crate::making::Unmade;
use crate::refusing::refused;
use acl_base::Word;
use acl_heap::Heap;
use acl_stobj_read::symbol;
use acl_stobj_written::{ReadStobj, StobjFault, read_written};
use acl_syms::Symbols;
use acl_terms::Descriptor;
use acl_worlds::World;
use std::alloc::Global;

/// The descriptor of a stobj that was read: its names are made, and then it may still be refused.
#[tactic(auto, using(crate::proofs::OutcomeLemmas::has_name, crate::proofs::OutcomeLemmas::name_known, crate::proofs::OutcomeLemmas::renaming_old, crate::proofs::OutcomeLemmas::fields_named, crate::proofs::OutcomeLemmas::shapes_lie, crate::proofs::OutcomeLemmas::full, crate::proofs::OutcomeLemmas::granted, crate::proofs::OutcomeLemmas::refused_named, crate::proofs::OutcomeLemmas::part_described, crate::proofs::OutcomeLemmas::part_memory, crate::proofs::OutcomeLemmas::part_full))]
fn describe_read(
    alloc: Global,
    heap: &Heap,
    syms: &mut Symbols,
    world: &World,
    form: Word,
    read: &ReadStobj,
) -> Result<Descriptor, StobjFault>
    requires known { Knows (length syms.old.symbols) (object_of heap.now form) }
    requires world { WorldLies heap.now world.now }
    requires read { Accepts (seen_world heap.now world.now) syms.old.symbols heap.now (object_of heap.now form) read.now }
    ensures grows { Extends syms.old syms.new }
    ensures packages { syms.new.packages ≡ syms.old.packages }
    ensures ok { IfOk result (λ d. Grants (seen_world heap.now world.now) syms.old (object_of heap.now form) syms.new.symbols (seen_descriptor heap.now d)) }
    ensures reach { IfOk result (λ d. descriptor_reach d ≤ length heap.now) }
    ensures err { IfErr result (Told heap.now (Refuses (seen_world heap.now world.now) syms.old (object_of heap.now form) syms.new.symbols)) }
    ensures lies { IfErr result (λ f. fault_reach f ≤ length heap.now) }
    ensures part { OnlyNames (seen_world heap.now world.now) syms.old (object_of heap.now form) syms.new.symbols }
{
    let written = &read.written;
    let Some(name) = symbol(heap, written.name) else {
        unreachable!()
    };
    let described = describe(
        alloc,
        syms,
        heap,
        written.renaming.as_slice(),
        name,
        read.fields.as_slice(),
        written.congruent_to,
    );
    match described {
        Err(Unmade::Full) => Err(StobjFault::SymbolLimit),
        Err(Unmade::Memory) => Err(StobjFault::Memory),
        Ok(descriptor) => {
            refused(alloc, world, heap, &descriptor)?;
            Ok(descriptor)
        }
    }
}

/// The descriptor of what stands behind the head `DEFSTOBJ`, or why it is refused. Symbols grow by the names that were made,
/// also where it is refused behind them; the heap is only read.
#[tactic(auto, using(crate::proofs::OutcomeLemmas::refused_before, crate::proofs::OutcomeLemmas::none_made_yet))]
pub fn read_descriptor(
    alloc: Global,
    heap: &Heap,
    syms: &mut Symbols,
    world: &World,
    form: Word,
) -> Result<Descriptor, StobjFault>
    requires form { Lies heap.now form }
    requires known { Knows (length syms.old.symbols) (object_of heap.now form) }
    requires world { WorldLies heap.now world.now }
    ensures grows { Extends syms.old syms.new }
    ensures packages { syms.new.packages ≡ syms.old.packages }
    ensures ok { IfOk result (λ d. Grants (seen_world heap.now world.now) syms.old (object_of heap.now form) syms.new.symbols (seen_descriptor heap.now d)) }
    ensures reach { IfOk result (λ d. descriptor_reach d ≤ length heap.now) }
    ensures err { IfErr result (Told heap.now (Refuses (seen_world heap.now world.now) syms.old (object_of heap.now form) syms.new.symbols)) }
    ensures lies { IfErr result (λ f. fault_reach f ≤ length heap.now) }
    ensures part { OnlyNames (seen_world heap.now world.now) syms.old (object_of heap.now form) syms.new.symbols }
{
    match read_written(alloc, heap, syms, world, form) {
        Err(fault) => Err(fault),
        Ok(read) => {
            let descriptor = describe_read(alloc, heap, syms, world, form, &read)?;
            Ok(descriptor)
        }
    }
}
