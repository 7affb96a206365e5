//! Functions that are admitted together enter a world.

ghost use Rattle.std.specs.Prelude.{◌≡◌, ◌<◌, ◌≤◌, ◌^◌, ℕ, length, None, IfOk, IfErr, OnOk, OnErr};
ghost use Rattle.std.specs.List.{All};
ghost use Rattle.model_stobjs.specs.Heads.{name_in_use};
ghost use Rattle.acl_worlds.specs.Contents.{seen_world};
ghost use Rattle.acl_code.specs.Constants.{ConstantsAreKnown};
ghost use Rattle.acl_code.specs.Tables.{Grown, TermsLie};
ghost use Rattle.acl_check.specs.Members.{FitsMember};
ghost use Rattle.acl_translate.specs.Functions.{HasRoom, FunctionsStand, MemberIsKnown};
ghost use Rattle.acl_signatures.specs.Candidates.{seen_candidates};
ghost use Rattle.acl_cliques.specs.Worlds.{names_of, named_world, Refused};
ghost use Rattle.acl_cliques.specs.Entered.{IsPrepared, Entered};

use crate::defining::definitions_of;
use crate::prepared::Prepared;
use crate::signing::signatures_in;
use crate::translating::translated;
use acl_check::Member;
use acl_code::Terms;
use acl_definitions::add_all;
use acl_heap::Heap;
use acl_terms::ThreadFault;
use acl_worlds::World;
use std::alloc::{AllocError, Global};

/// The signatures and the terms of functions where the rules accept them, else the first fault. The world ends as it was, and
/// so does the table where they are refused.
#[tactic(auto, using(crate::proofs::WorldLemmas::refused_by))]
fn prepare(
    alloc: Global,
    world: &mut World,
    terms: &mut Terms,
    heap: &Heap,
    members: &[Member],
    executable: &[bool],
) -> Result<Prepared, ThreadFault>
    requires words { TermsLie heap.now terms.old }
    requires same { length executable.now ≡ length members.now }
    requires few { length members.now ≤ 2 ^ 32 }
    requires fit { All (FitsMember heap.now) members.now }
    requires room { All (HasRoom heap.now) members.now }
    requires fresh { name_in_use (seen_world heap.now world.old) (names_of members.now) ≡ None }
    requires stand { All (FunctionsStand heap.now (named_world (seen_world heap.now world.old) (seen_candidates heap.now members.now executable.now))) members.now }
    ensures ok { IfOk result (λ r. IsPrepared heap.now (seen_world heap.now world.old) terms.new (seen_candidates heap.now members.now executable.now) r) }
    ensures err { IfErr result (Refused (seen_world heap.now world.old) (seen_candidates heap.now members.now executable.now)) }
    ensures unchanged { OnErr result (terms.new ≡ terms.old) }
    ensures world { world.new ≡ world.old }
    ensures grows { Grown terms.old terms.new }
    ensures words { TermsLie heap.now terms.new }
    ensures known { (n : ℕ) → 1 < n → All (MemberIsKnown n heap.now) members.now → ConstantsAreKnown n heap.now terms.old → ConstantsAreKnown n heap.now terms.new }
{
    match signatures_in(alloc, world, heap, members, executable) {
        Err(_refused) => Err(ThreadFault::Memory),
        Ok(known) => {
            match translated(
                alloc,
                world,
                terms,
                heap,
                known.as_slice(),
                members,
                executable,
            ) {
                Err(fault) => Err(fault),
                Ok(built) => Ok(Prepared {
                    known,
                    terms: built,
                }),
            }
        }
    }
}

/// Puts the definitions of functions into the world, all or none.
#[tactic(auto, using(crate::proofs::WorldLemmas::defined_distinct, crate::proofs::WorldLemmas::defined_fit))]
fn define(
    alloc: Global,
    world: &mut World,
    heap: &Heap,
    members: Vec<Member>,
    executable: &[bool],
    prepared: &Prepared,
    _terms: &Terms,
) -> Result<(), AllocError>
    requires same { length executable.now ≡ length members.items }
    requires fit { All (FitsMember heap.now) members.items }
    requires fresh { name_in_use (seen_world heap.now world.old) (names_of members.items) ≡ None }
    requires prepared { IsPrepared heap.now (seen_world heap.now world.old) _terms.now (seen_candidates heap.now members.items executable.now) prepared.now }
    ensures ok { OnOk result (Entered heap.now world.old world.new _terms.now (seen_candidates heap.now members.items executable.now)) }
    ensures err { OnErr result (world.new ≡ world.old) }
{
    world.is_world();
    let definitions = definitions_of(
        alloc,
        heap,
        prepared.known.as_slice(),
        members,
        executable,
        prepared.terms.as_slice(),
    )?;
    add_all(world, definitions)?;
    Ok(())
}

/// Functions that are admitted together enter the world with their signatures and their terms, where the rules accept them,
/// else the first fault is answered. At a fault and for want of memory world and table are as they were.
pub fn enter_functions(
    alloc: Global,
    world: &mut World,
    terms: &mut Terms,
    heap: &Heap,
    members: Vec<Member>,
    executable: &[bool],
) -> Result<(), ThreadFault>
    requires words { TermsLie heap.now terms.old }
    requires same { length executable.now ≡ length members.items }
    requires few { length members.items ≤ 2 ^ 32 }
    requires fit { All (FitsMember heap.now) members.items }
    requires room { All (HasRoom heap.now) members.items }
    requires fresh { name_in_use (seen_world heap.now world.old) (names_of members.items) ≡ None }
    requires stand { All (FunctionsStand heap.now (named_world (seen_world heap.now world.old) (seen_candidates heap.now members.items executable.now))) members.items }
    ensures ok { OnOk result (Entered heap.now world.old world.new terms.new (seen_candidates heap.now members.items executable.now)) }
    ensures err { IfErr result (Refused (seen_world heap.now world.old) (seen_candidates heap.now members.items executable.now)) }
    ensures unchanged { OnErr result (world.new ≡ world.old) }
    ensures table { OnErr result (terms.new ≡ terms.old) }
    ensures grows { Grown terms.old terms.new }
    ensures words { TermsLie heap.now terms.new }
    ensures known { (n : ℕ) → 1 < n → All (MemberIsKnown n heap.now) members.items → ConstantsAreKnown n heap.now terms.old → ConstantsAreKnown n heap.now terms.new }
{
    let mark = terms.len();
    match prepare(alloc, world, terms, heap, members.as_slice(), executable) {
        Err(fault) => Err(fault),
        Ok(prepared) => match define(alloc, world, heap, members, executable, &prepared, terms) {
            Ok(()) => Ok(()),
            Err(_refused) => {
                terms.cut_to(mark);
                Err(ThreadFault::Memory)
            }
        },
    }
}
