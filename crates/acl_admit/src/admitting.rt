//! Functions that an expansion made enter a world.

ghost use Rattle.std.specs.Prelude.{◌≡◌, ◌<◌, ◌≤◌, ℕ, length, None, IfErr, OnOk, OnErr};
ghost use Rattle.std.specs.List.{All};
ghost use Rattle.model_stobjs.specs.Heads.{name_in_use};
ghost use Rattle.model_events.specs.Functions as functions;
ghost use Rattle.model_standing.specs.Laws.{MembersStand};
ghost use Rattle.acl_worlds.specs.Contents.{seen_world};
ghost use Rattle.acl_code.specs.Constants.{ConstantsAreKnown};
ghost use Rattle.acl_code.specs.Tables.{Grown, TermsLie};
ghost use Rattle.acl_translate.specs.Functions.{MemberIsKnown};
ghost use Rattle.acl_signatures.specs.Candidates.{seen_candidates};
ghost use Rattle.acl_cliques.specs.Worlds.{names_of, named_world, Refused};
ghost use Rattle.acl_cliques.specs.Entered.{Entered};
ghost use Rattle.acl_admit.specs.Ready.{members_reach};

use crate::ready::are_ready;
use acl_check::Member;
use acl_cliques::enter_functions;
use acl_code::Terms;
use acl_heap::Heap;
use acl_terms::ThreadFault;
use acl_worlds::World;
use std::alloc::Global;

/// Functions that an expansion made enter the world together, with their signatures and their terms, where the rules accept
/// them; else the first fault is answered. Functions that are too large to be checked are answered as want of memory. At a
/// fault and for want of memory world and table are as they were.
#[tactic(auto, using(crate::proofs::AdmitLemmas::ready_few, crate::proofs::AdmitLemmas::ready_fit, crate::proofs::AdmitLemmas::ready_room, crate::proofs::AdmitLemmas::members_stand))]
pub fn admit_functions(
    alloc: Global,
    world: &mut World,
    terms: &mut Terms,
    heap: &Heap,
    members: Vec<Member>,
    executable: &[bool],
) -> Result<(), ThreadFault>
    requires words { TermsLie heap.now terms.old }
    requires same { length executable.now ≡ length members.items }
    requires lie { members_reach members.items ≤ length heap.now }
    requires fresh { name_in_use (seen_world heap.now world.old) (names_of members.items) ≡ None }
    requires stand { MembersStand (named_world (seen_world heap.now world.old) (seen_candidates heap.now members.items executable.now)) (functions.members (seen_candidates heap.now members.items executable.now)) }
    ensures ok { OnOk result (Entered heap.now world.old world.new terms.new (seen_candidates heap.now members.items executable.now)) }
    ensures err { IfErr result (Refused (seen_world heap.now world.old) (seen_candidates heap.now members.items executable.now)) }
    ensures unchanged { OnErr result (world.new ≡ world.old) }
    ensures table { OnErr result (terms.new ≡ terms.old) }
    ensures grows { Grown terms.old terms.new }
    ensures words { TermsLie heap.now terms.new }
    ensures known { (n : ℕ) → 1 < n → All (MemberIsKnown n heap.now) members.items → ConstantsAreKnown n heap.now terms.old → ConstantsAreKnown n heap.now terms.new }
{
    if are_ready(heap, members.as_slice()) {
        match enter_functions(alloc, world, terms, heap, members, executable) {
            Ok(()) => Ok(()),
            Err(fault) => Err(fault),
        }
    } else {
        Err(ThreadFault::Memory)
    }
}
