//! The signatures of the functions that run.

ghost use Rattle.std.specs.Prelude.{◌≡◌, length, IfOk, option_map};
ghost use Rattle.std.specs.List.{All, filter_map};
ghost use Rattle.model_events.specs.Functions.{running};
ghost use Rattle.acl_worlds.specs.Contents.{seen_world};
ghost use Rattle.acl_outputs.specs.Known.{seen_known};
ghost use Rattle.acl_check.specs.Members.{seen_pair, FitsMember};
ghost use Rattle.acl_signatures.specs.Candidates.{seen_candidate, seen_candidates, of_running, named_signature, running_signatures};

use crate::rounds::known_at_last;
use acl_base::SymId;
use acl_check::{Member, member_signature, put_learned};
use acl_heap::Heap;
use acl_terms::Signature;
use acl_worlds::World;
use sqlite_items::Items;
use std::alloc::{AllocError, Global};

/// The signature of a function with its name; nothing where it does not run.
fn signature_of(
    alloc: Global,
    world: &World,
    heap: &Heap,
    known: &[(SymId, Signature)],
    member: &Member,
    executable: bool,
) -> Result<Option<(SymId, Signature)>, AllocError>
    ensures { IfOk result (λ r. option_map seen_pair r ≡ of_running (named_signature (seen_world heap.now world.now) (seen_known known.now)) (seen_candidate heap.now member.now executable)) }
{
    if executable {
        let signature = member_signature(alloc, world, heap, known, member)?;
        Ok(Some((member.name, signature)))
    } else {
        Ok(None)
    }
}

/// The signatures of the functions that run, by what is known at last.
fn signatures_by(
    alloc: Global,
    world: &World,
    heap: &Heap,
    known: &[(SymId, Signature)],
    members: &[Member],
    executable: &[bool],
) -> Result<Items<(SymId, Signature)>, AllocError>
    requires same { length executable.now ≡ length members.now }
    ensures { IfOk result (λ r. seen_known r ≡ filter_map (named_signature (seen_world heap.now world.now) (seen_known known.now)) (running (seen_candidates heap.now members.now executable.now))) }
{
    let mut found = Items::new(alloc);
    for (n, member) in members.iter().enumerate() {
        let one = signature_of(alloc, world, heap, known, member, executable[n])?;
        put_learned(&mut found, one)?;
    }
    Ok(found)
}

/// The signatures of the functions that run, each with its name, in their order. The world has all functions as they stand
/// before the rounds. An answer other than Ok is want of memory. There are as many rounds as functions run.
pub fn signatures(
    alloc: Global,
    world: &World,
    heap: &Heap,
    members: &[Member],
    executable: &[bool],
) -> Result<Items<(SymId, Signature)>, AllocError>
    requires same { length executable.now ≡ length members.now }
    requires fit { All (FitsMember heap.now) members.now }
    ensures { IfOk result (λ r. seen_known r ≡ running_signatures (seen_world heap.now world.now) (seen_candidates heap.now members.now executable.now)) }
{
    let known = known_at_last(alloc, world, heap, members, executable)?;
    let found = signatures_by(alloc, world, heap, known.as_slice(), members, executable)?;
    Ok(found)
}
