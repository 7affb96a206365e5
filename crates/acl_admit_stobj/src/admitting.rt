//! The event whole: its form is read, and the stobj enters the world, or the world stays as it was.

ghost use Rattle.std.specs.Prelude.{◌≡◌, ◌≤◌, length, IfOk, IfErr, OnErr};
ghost use Rattle.model_objects.specs.Named.{Knows};
ghost use Rattle.model_symbols.specs.Growth.{Extends};
ghost use Rattle.acl_heap.specs.Objects.{object_of, Lies};
ghost use Rattle.acl_worlds.specs.Contents.{seen_world, WorldLies};
ghost use Rattle.acl_stobj_written.specs.Refusals.{Told, fault_reach};
ghost use Rattle.acl_stobj.specs.Outcomes.{OnlyNames};
ghost use Rattle.acl_admit_stobj.specs.Admitted.{Admits, Refuses, HasEntered};

use acl_base::{SymId, Word};
use acl_enter_stobj::enter_stobj;
use acl_heap::Heap;
use acl_stobj::read_descriptor;
use acl_stobj_written::StobjFault;
use acl_syms::Symbols;
use acl_worlds::World;
use std::alloc::Global;

/// Defines the stobj of what stands behind the head `DEFSTOBJ`, and answers its name. The world has the stobj and then its functions
/// behind what it had, and the stobj's layout as its last one.
#[tactic(auto, using(crate::proofs::AdmitLemmas::refused, crate::proofs::AdmitLemmas::fresh, crate::proofs::AdmitLemmas::admits, crate::proofs::AdmitLemmas::has_entered))]
pub fn admit_stobj(
    alloc: Global,
    heap: &Heap,
    syms: &mut Symbols,
    world: &mut World,
    form: Word,
) -> Result<SymId, StobjFault>
    requires form { Lies heap.now form }
    requires known { Knows (length syms.old.symbols) (object_of heap.now form) }
    requires world { WorldLies heap.now world.old }
    ensures grows { Extends syms.old syms.new }
    ensures packages { syms.new.packages ≡ syms.old.packages }
    ensures part { OnlyNames (seen_world heap.now world.old) syms.old (object_of heap.now form) syms.new.symbols }
    ensures lies { WorldLies heap.now world.new }
    ensures ok { IfOk result (λ name. Admits (seen_world heap.now world.old) syms.old (object_of heap.now form) syms.new.symbols (seen_world heap.now world.new) name.0) }
    ensures enters { IfOk result (λ name. HasEntered world.old world.new name.0) }
    ensures err { IfErr result (Told heap.now (Refuses (seen_world heap.now world.old) syms.old (object_of heap.now form) syms.new.symbols)) }
    ensures fault { IfErr result (λ f. fault_reach f ≤ length heap.now) }
    ensures same { OnErr result (world.new ≡ world.old) }
{
    match read_descriptor(alloc, heap, syms, world, form) {
        Err(fault) => Err(fault),
        Ok(descriptor) => {
            let name = descriptor.name;
            world.is_world();
            enter_stobj(alloc, heap, world, descriptor)?;
            Ok(name)
        }
    }
}
