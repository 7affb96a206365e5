//! The signatures of functions that come into a world.

ghost use Rattle.std.specs.Prelude.{◌≡◌, length, None, IfOk};
ghost use Rattle.std.specs.List.{All};
ghost use Rattle.model_events.specs.Functions.{signatures};
ghost use Rattle.model_stobjs.specs.Heads.{name_in_use};
ghost use Rattle.acl_worlds.specs.Contents.{seen_world};
ghost use Rattle.acl_outputs.specs.Known.{seen_known};
ghost use Rattle.acl_check.specs.Members.{FitsMember};
ghost use Rattle.acl_signatures.specs.Candidates.{seen_candidates};
ghost use Rattle.acl_cliques.specs.Worlds.{names_of};

use acl_base::SymId;
use acl_check::Member;
use acl_definitions::add_all;
use acl_heap::Heap;
use acl_signatures::{entries_before, signatures};
use acl_terms::Signature;
use acl_worlds::World;
use sqlite_items::Items;
use std::alloc::{AllocError, Global};

/// The signatures of the functions that run, by the world in which all stand before the rounds. The world ends as it was.
#[tactic(auto, using(crate::proofs::WorldLemmas::before_distinct, crate::proofs::WorldLemmas::before_fit, crate::proofs::WorldLemmas::cut_within, crate::proofs::WorldLemmas::cut_layouts, crate::proofs::WorldLemmas::cut_back))]
pub fn signatures_in(
    alloc: Global,
    world: &mut World,
    heap: &Heap,
    members: &[Member],
    executable: &[bool],
) -> Result<Items<(SymId, Signature)>, AllocError>
    requires same { length executable.now ≡ length members.now }
    requires fit { All (FitsMember heap.now) members.now }
    requires fresh { name_in_use (seen_world heap.now world.old) (names_of members.now) ≡ None }
    ensures ok { IfOk result (λ r. seen_known r ≡ signatures (seen_world heap.now world.old) (seen_candidates heap.now members.now executable.now)) }
    ensures world { world.new ≡ world.old }
{
    world.is_world();
    let mark = world.mark();
    let entries = entries_before(alloc, heap, members, executable)?;
    add_all(world, entries)?;
    let found = signatures(alloc, world, heap, members, executable);
    world.cut_to(mark);
    found
}
