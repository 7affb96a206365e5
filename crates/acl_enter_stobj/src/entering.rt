//! A stobj put into a world, or not at all.

ghost use Rattle.std.specs.Prelude.{◌≡◌, ◌≤◌, ◌++◌, length, OnOk, OnErr};
ghost use Rattle.model_terms.specs.Worlds.{HasDistinctNames};
ghost use Rattle.model_stobjs.specs.Entries.{stobj_entries};
ghost use Rattle.acl_terms.specs.Definitions.{seen_descriptor, descriptor_reach};
ghost use Rattle.acl_worlds.specs.Contents.{seen_world, WorldLies};
ghost use Rattle.acl_enter_stobj.specs.Entered.{Enters};

use crate::adding::add_stobj;
use crate::class::class_for;
use crate::laying::laid;
use acl_generated::generated_functions;
use acl_heap::Heap;
use acl_terms::Descriptor;
use acl_worlds::World;
use std::alloc::{AllocError, Global};

/// Puts a stobj with its layout and its functions last. Where memory is refused, the world is as it was.
#[tactic(auto, using(crate::proofs::EnterLemmas::all_fresh, crate::proofs::EnterLemmas::stobj_seen, crate::proofs::EnterLemmas::stobj_enters, crate::proofs::EnterLemmas::stobj_lies, crate::proofs::EnterLemmas::lies_same, crate::proofs::AddLemmas::cut_begins, crate::proofs::AddLemmas::definitions_marked, crate::proofs::AddLemmas::layouts_marked))]
pub fn enter_stobj(
    alloc: Global,
    heap: &Heap,
    world: &mut World,
    descriptor: Descriptor,
) -> Result<(), AllocError>
    requires fresh { HasDistinctNames (seen_world heap.now world.old ++ stobj_entries (seen_world heap.now world.old) (seen_descriptor heap.now descriptor)) }
    requires descriptor { descriptor_reach descriptor ≤ length heap.now }
    requires world { WorldLies heap.now world.old }
    ensures ok { OnOk result (seen_world heap.now world.new ≡ seen_world heap.now world.old ++ stobj_entries (seen_world heap.now world.old) (seen_descriptor heap.now descriptor)) }
    ensures enters { OnOk result (Enters world.old world.new descriptor) }
    ensures lies { WorldLies heap.now world.new }
    ensures err { OnErr result (world.new ≡ world.old) }
{
    let functions = generated_functions(alloc, heap, &descriptor)?;
    let layout = laid(alloc, world, descriptor.fields.as_slice())?;
    let class = class_for(world, heap, &descriptor);
    let mark = world.mark();
    match add_stobj(world, descriptor, class, layout, functions) {
        Ok(()) => Ok(()),
        Err(refused) => {
            world.cut_to(mark);
            Err(refused)
        }
    }
}
