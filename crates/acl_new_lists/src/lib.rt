//! The list that a new object of a world begins as, in a table of lists.
#![tactic(auto)]

ghost use Rattle.std.specs.Prelude.{◌≡◌, ◌<◌, length, IfOk, OnErr};
ghost use Rattle.model_eval.specs.StobjLayouts.{new_list};
ghost use Rattle.acl_lists.specs.Tables.{list_at, Grown};
ghost use Rattle.acl_worlds.specs.Contents.{seen_world, WorldLies};

mod finding;
mod putting;
#[cfg(test)]
mod tests;

use acl_base::SymId;
use acl_heap::Heap;
use acl_lists::{ListId, Lists};
use acl_worlds::World;
use putting::put_stobj;
use std::alloc::{AllocError, Global};

/// How many objects may be nested in each other, and one more.
const DEEPEST: u32 = 65;

/// The list of a new object, of an abstract one that of its foundation. What is refused leaves the table as it was.
#[tactic(auto, using(crate::proofs::BegunLemmas::whole_list, acl_lists::proofs::BuildLemmas::cut_back, acl_lists::proofs::BuildLemmas::cut_grown, acl_lists::proofs::BuildLemmas::cut_within))]
pub fn new_list(
    alloc: Global,
    lists: &mut Lists,
    world: &World,
    heap: &Heap,
    stobj: SymId,
) -> Result<ListId, AllocError>
    requires { WorldLies heap.now world.now }
    ensures within { IfOk result (λ n. n.0 < length lists.new) }
    ensures is { IfOk result (λ n. list_at lists.new n ≡ new_list (seen_world heap.now world.now) stobj.0) }
    ensures grows { Grown lists.old lists.new }
    ensures err { OnErr result (lists.new ≡ lists.old) }
{
    let before = lists.len();
    match put_stobj(alloc, lists, world, heap, DEEPEST, stobj) {
        Ok(n) => Ok(n),
        Err(refused) => {
            lists.cut_to(before);
            Err(refused)
        }
    }
}
