//! The terms of functions that come into a world.

ghost use Rattle.std.specs.Prelude.{◌≡◌, ◌<◌, ◌≤◌, ◌^◌, ◌++◌, ℕ, length, map, None, IfOk, IfErr, OnOk, OnErr};
ghost use Rattle.std.specs.List.{All};
ghost use Rattle.model_terms.specs.Faults.{clique_fault};
ghost use Rattle.model_stobjs.specs.Heads.{name_in_use};
ghost use Rattle.model_events.specs.Functions as functions;
ghost use Rattle.acl_worlds.specs.Contents.{seen_world};
ghost use Rattle.acl_outputs.specs.Known.{seen_known};
ghost use Rattle.acl_code.specs.Constants.{ConstantsAreKnown};
ghost use Rattle.acl_code.specs.Tables.{Grown, TermsLie};
ghost use Rattle.acl_check.specs.Members.{FitsMember};
ghost use Rattle.acl_check.specs.Says.{Says};
ghost use Rattle.acl_translate.specs.Functions.{all_function_trees, HasRoom, FunctionsStand, AreFunctions, MemberIsKnown};
ghost use Rattle.acl_signatures.specs.Candidates.{seen_candidates};
ghost use Rattle.acl_cliques.specs.Worlds.{names_of, named_world};

use acl_base::SymId;
use acl_check::Member;
use acl_code::Terms;
use acl_definitions::add_all;
use acl_heap::Heap;
use acl_signatures::entries_signed;
use acl_terms::{Signature, ThreadFault};
use acl_translate::{FunctionTerms, translate_clique};
use acl_worlds::World;
use sqlite_items::Items;
use std::alloc::Global;

/// The terms of functions where the rules accept them in the world in which they stand with these signatures, else the first
/// fault. The world ends as it was, and so does the table where there are no terms.
#[tactic(auto, using(crate::proofs::WorldLemmas::signed_distinct, crate::proofs::WorldLemmas::signed_fit, crate::proofs::WorldLemmas::cut_within, crate::proofs::WorldLemmas::cut_layouts, crate::proofs::WorldLemmas::cut_back))]
pub fn translated(
    alloc: Global,
    world: &mut World,
    terms: &mut Terms,
    heap: &Heap,
    known: &[(SymId, Signature)],
    members: &[Member],
    executable: &[bool],
) -> Result<Items<FunctionTerms>, ThreadFault>
    requires words { TermsLie heap.now terms.old }
    requires same { length executable.now ≡ length members.now }
    requires few { length members.now ≤ 2 ^ 32 }
    requires fit { All (FitsMember heap.now) members.now }
    requires room { All (HasRoom heap.now) members.now }
    requires fresh { name_in_use (seen_world heap.now world.old) (names_of members.now) ≡ None }
    requires stand { All (FunctionsStand heap.now (named_world (seen_world heap.now world.old) (seen_candidates heap.now members.now executable.now))) members.now }
    ensures accepted { OnOk result (clique_fault (seen_world heap.now world.old ++ map (functions.signed (seen_known known.now)) (seen_candidates heap.now members.now executable.now)) 0 (functions.members (seen_candidates heap.now members.now executable.now)) ≡ None) }
    ensures built { IfOk result (λ r. AreFunctions heap.now terms.new r (all_function_trees (seen_world heap.now world.old ++ map (functions.signed (seen_known known.now)) (seen_candidates heap.now members.now executable.now)) (functions.members (seen_candidates heap.now members.now executable.now)))) }
    ensures err { IfErr result (λ e. Says (clique_fault (seen_world heap.now world.old ++ map (functions.signed (seen_known known.now)) (seen_candidates heap.now members.now executable.now)) 0 (functions.members (seen_candidates heap.now members.now executable.now))) e) }
    ensures unchanged { OnErr result (terms.new ≡ terms.old) }
    ensures world { world.new ≡ world.old }
    ensures grows { Grown terms.old terms.new }
    ensures words { TermsLie heap.now terms.new }
    ensures known { (n : ℕ) → 1 < n → All (MemberIsKnown n heap.now) members.now → ConstantsAreKnown n heap.now terms.old → ConstantsAreKnown n heap.now terms.new }
{
    world.is_world();
    let mark = world.mark();
    let entries = match entries_signed(alloc, heap, known, members, executable) {
        Ok(entries) => entries,
        Err(_refused) => return Err(ThreadFault::Memory),
    };
    match add_all(world, entries) {
        Ok(()) => {
            let found = translate_clique(alloc, terms, world, heap, members);
            world.cut_to(mark);
            found
        }
        Err(_refused) => Err(ThreadFault::Memory),
    }
}
