//! The signatures of functions that are admitted together, found in rounds.

ghost use Rattle.std.specs.Prelude.{◌≡◌, ◌≤◌, ◌++◌, ◌∷◌, [], map, length, IfOk, OnOk, option_map, option_to_list};
ghost use Rattle.std.specs.List.{All, filter_map};
ghost use Rattle.model_terms.specs.Rounds.{learned, known_at_last, signed, clique};
ghost use Rattle.acl_terms.specs.Signatures.{seen_outs, seen_signature};
ghost use Rattle.acl_worlds.specs.Contents.{seen_world};
ghost use Rattle.acl_outputs.specs.Known.{seen_known};
ghost use Rattle.acl_check.specs.Members.{seen_member, seen_members, seen_pair, body_learned, member_signature, FitsMember};

use crate::member::{Member, formal_kinds, formal_scope};
use acl_base::SymId;
use acl_heap::Heap;
use acl_outputs::{known_signature, outputs};
use acl_terms::{Out, Signature};
use acl_worlds::World;
use sqlite_items::Items;
use std::alloc::{AllocError, Global};

/// The signature of a function with these outputs.
fn signed(
    alloc: Global,
    world: &World,
    heap: &Heap,
    member: &Member,
    outs: Items<Out>,
) -> Result<Signature, AllocError>
    ensures { IfOk result (λ s. seen_signature s ≡ signed (seen_world heap.now world.now) (seen_member heap.now member.now) (seen_outs outs)) }
{
    let ins = formal_kinds(
        alloc,
        world,
        heap,
        member.stobjs.as_slice(),
        member.formals.as_slice(),
    )?;
    Ok(Signature { ins, outs })
}

/// The signature of a function whose body now has known outputs.
#[tactic(auto, using(crate::proofs::CliqueLemmas::body_deep, crate::proofs::CliqueLemmas::told_none, crate::proofs::CliqueLemmas::told_some))]
fn told(
    alloc: Global,
    world: &World,
    heap: &Heap,
    known: &[(SymId, Signature)],
    member: &Member,
) -> Result<Option<(SymId, Signature)>, AllocError>
    requires { FitsMember heap.now member.now }
    ensures { IfOk result (λ r. option_map seen_pair r ≡ body_learned (seen_world heap.now world.now) (seen_known known.now) (seen_member heap.now member.now)) }
{
    let scope = formal_scope(
        alloc,
        world,
        heap,
        member.stobjs.as_slice(),
        member.formals.as_slice(),
    )?;
    match outputs(alloc, world, heap, known, &scope, &member.body)? {
        Some(outs) => {
            let signature = signed(alloc, world, heap, member, outs)?;
            Ok(Some((member.name, signature)))
        }
        None => Ok(None),
    }
}

/// The signature of a function that was unknown and whose body now has known outputs.
#[tactic(auto, using(crate::proofs::CliqueLemmas::learned_before, crate::proofs::CliqueLemmas::learned_now))]
pub fn learned(
    alloc: Global,
    world: &World,
    heap: &Heap,
    known: &[(SymId, Signature)],
    member: &Member,
) -> Result<Option<(SymId, Signature)>, AllocError>
    requires { FitsMember heap.now member.now }
    ensures { IfOk result (λ r. option_map seen_pair r ≡ learned (seen_world heap.now world.now) (seen_known known.now) (seen_member heap.now member.now)) }
{
    match known_signature(known, member.name) {
        Some(_) => Ok(None),
        None => {
            let one = told(alloc, world, heap, known, member)?;
            Ok(one)
        }
    }
}

/// Puts what is learned last, where there is any.
#[tactic(auto, using(crate::proofs::CliqueLemmas::known_push, crate::proofs::CliqueLemmas::known_same))]
pub fn put_learned(
    found: &mut Items<(SymId, Signature)>,
    one: Option<(SymId, Signature)>,
) -> Result<(), AllocError>
    ensures { OnOk result (seen_known found.new ≡ seen_known found.old ++ option_to_list (option_map seen_pair one)) }
{
    match one {
        Some(pair) => {
            found.push(pair)?;
            Ok(())
        }
        None => Ok(()),
    }
}

/// What a round learns, by what was known when it began.
#[tactic(auto, using(crate::proofs::CliqueLemmas::round_step, crate::proofs::CliqueLemmas::round_end))]
fn round(
    alloc: Global,
    world: &World,
    heap: &Heap,
    members: &[Member],
    known: &[(SymId, Signature)],
) -> Result<Items<(SymId, Signature)>, AllocError>
    requires { All (FitsMember heap.now) members.now }
    ensures { IfOk result (λ r. seen_known r ≡ filter_map (learned (seen_world heap.now world.now) (seen_known known.now)) (seen_members heap.now members.now)) }
{
    let mut found = Items::new(alloc);
    for member in members {
        let one = learned(alloc, world, heap, known, member)?;
        put_learned(&mut found, one)?;
    }
    Ok(found)
}

/// The signatures that are known after as many rounds as functions.
#[tactic(auto, using(crate::proofs::CliqueLemmas::rounds_step, crate::proofs::CliqueLemmas::rounds_end, crate::proofs::CliqueLemmas::rounds_start, crate::proofs::CliqueLemmas::known_more, crate::proofs::CliqueLemmas::length_seen))]
fn known_at_last(
    alloc: Global,
    world: &World,
    heap: &Heap,
    members: &[Member],
) -> Result<Items<(SymId, Signature)>, AllocError>
    requires { All (FitsMember heap.now) members.now }
    ensures { IfOk result (λ r. seen_known r ≡ known_at_last (seen_world heap.now world.now) (seen_members heap.now members.now)) }
{
    let mut known = Items::new(alloc);
    for _ in 0..members.len() {
        let more = round(alloc, world, heap, members, known.as_slice())?;
        known.append(more)?;
    }
    Ok(known)
}

/// The signature of a function: as it is known, else with one ordinary output.
#[tactic(auto, using(crate::proofs::CliqueLemmas::signature_there, crate::proofs::CliqueLemmas::signature_none))]
pub fn member_signature(
    alloc: Global,
    world: &World,
    heap: &Heap,
    known: &[(SymId, Signature)],
    member: &Member,
) -> Result<Signature, AllocError>
    ensures { IfOk result (λ s. seen_signature s ≡ member_signature (seen_world heap.now world.now) (seen_known known.now) (seen_member heap.now member.now)) }
{
    match known_signature(known, member.name) {
        Some(signature) => {
            let ins = Items::from_slice(alloc, signature.ins.as_slice())?;
            let outs = Items::from_slice(alloc, signature.outs.as_slice())?;
            Ok(Signature { ins, outs })
        }
        None => {
            let outs = Items::from_slice(alloc, &[Out::Ordinary])?;
            let signature = signed(alloc, world, heap, member, outs)?;
            Ok(signature)
        }
    }
}

/// The signatures of functions, by what is known at last.
#[tactic(auto, using(crate::proofs::CliqueLemmas::clique_step, crate::proofs::CliqueLemmas::clique_end, crate::proofs::CliqueLemmas::signatures_push))]
fn signatures(
    alloc: Global,
    world: &World,
    heap: &Heap,
    known: &[(SymId, Signature)],
    members: &[Member],
) -> Result<Items<Signature>, AllocError>
    ensures { IfOk result (λ r. map seen_signature r ≡ map (member_signature (seen_world heap.now world.now) (seen_known known.now)) (seen_members heap.now members.now)) }
{
    let mut signatures = Items::new(alloc);
    for member in members {
        let signature = member_signature(alloc, world, heap, known, member)?;
        signatures.push(signature)?;
    }
    Ok(signatures)
}

/// The signatures of the functions of a clique, in their order. An answer other than Ok is want of memory. There are as many
/// rounds as functions, and each looks at the functions that are still unknown.
pub fn clique(
    alloc: Global,
    world: &World,
    heap: &Heap,
    members: &[Member],
) -> Result<Items<Signature>, AllocError>
    requires { All (FitsMember heap.now) members.now }
    ensures { IfOk result (λ r. map seen_signature r ≡ clique (seen_world heap.now world.now) (seen_members heap.now members.now)) }
{
    let known = known_at_last(alloc, world, heap, members)?;
    let found = signatures(alloc, world, heap, known.as_slice(), members)?;
    Ok(found)
}
