//! The rounds in which the signatures of the functions that run are found.

ghost use Rattle.std.specs.Prelude.{◌≡◌, length, IfOk, OnOk, option_map, if◌then◌else◌};
ghost use Rattle.std.specs.List.{All, filter_map};
ghost use Rattle.model_terms.specs.Rounds.{learned, round, known_at_last};
ghost use Rattle.model_events.specs.Functions.{running};
ghost use Rattle.acl_worlds.specs.Contents.{seen_world};
ghost use Rattle.acl_outputs.specs.Known.{seen_known};
ghost use Rattle.acl_check.specs.Members.{seen_pair, FitsMember};
ghost use Rattle.acl_signatures.specs.Candidates.{seen_candidate, seen_candidates, of_running};

use acl_base::SymId;
use acl_check::{Member, learned, put_learned};
use acl_heap::Heap;
use acl_terms::Signature;
use acl_worlds::World;
use sqlite_items::Items;
use std::alloc::{AllocError, Global};

/// What a round learns of a function; nothing where it does not run.
fn learned_of(
    alloc: Global,
    world: &World,
    heap: &Heap,
    known: &[(SymId, Signature)],
    member: &Member,
    executable: bool,
) -> Result<Option<(SymId, Signature)>, AllocError>
    requires { FitsMember heap.now member.now }
    ensures { IfOk result (λ r. option_map seen_pair r ≡ of_running (learned (seen_world heap.now world.now) (seen_known known.now)) (seen_candidate heap.now member.now executable)) }
{
    if executable {
        let one = learned(alloc, world, heap, known, member)?;
        Ok(one)
    } else {
        Ok(None)
    }
}

/// What a round learns, by what was known when it began.
fn round(
    alloc: Global,
    world: &World,
    heap: &Heap,
    members: &[Member],
    executable: &[bool],
    known: &[(SymId, Signature)],
) -> Result<Items<(SymId, Signature)>, AllocError>
    requires same { length executable.now ≡ length members.now }
    requires fit { All (FitsMember heap.now) members.now }
    ensures { IfOk result (λ r. seen_known r ≡ filter_map (learned (seen_world heap.now world.now) (seen_known known.now)) (running (seen_candidates heap.now members.now executable.now))) }
{
    let mut found = Items::new(alloc);
    for (n, member) in members.iter().enumerate() {
        let one = learned_of(alloc, world, heap, known, member, executable[n])?;
        put_learned(&mut found, one)?;
    }
    Ok(found)
}

/// One round more, where a function runs.
#[tactic(auto, using(acl_check::proofs::CliqueLemmas::known_more))]
fn learn_more(
    alloc: Global,
    world: &World,
    heap: &Heap,
    members: &[Member],
    executable: &[bool],
    known: &mut Items<(SymId, Signature)>,
    runs: bool,
) -> Result<(), AllocError>
    requires same { length executable.now ≡ length members.now }
    requires fit { All (FitsMember heap.now) members.now }
    ensures { OnOk result (seen_known known.new ≡ (if runs then round (seen_world heap.now world.now) (running (seen_candidates heap.now members.now executable.now)) (seen_known known.old) else seen_known known.old)) }
{
    if runs {
        let more = round(alloc, world, heap, members, executable, known.as_slice())?;
        known.append(more)?;
        Ok(())
    } else {
        Ok(())
    }
}

/// The signatures that are known after as many rounds as functions run.
#[tactic(auto, using(crate::proofs::RunningLemmas::rounds_start, crate::proofs::RunningLemmas::rounds_end))]
pub fn known_at_last(
    alloc: Global,
    world: &World,
    heap: &Heap,
    members: &[Member],
    executable: &[bool],
) -> Result<Items<(SymId, Signature)>, AllocError>
    requires same { length executable.now ≡ length members.now }
    requires fit { All (FitsMember heap.now) members.now }
    ensures { IfOk result (λ r. seen_known r ≡ known_at_last (seen_world heap.now world.now) (running (seen_candidates heap.now members.now executable.now))) }
{
    let mut known = Items::new(alloc);
    for runs in executable {
        learn_more(alloc, world, heap, members, executable, &mut known, *runs)?;
    }
    Ok(known)
}
