//! A function that enters, and one whose body has a variable that is no formal.

ghost use Rattle.std.specs.Prelude.{◌≡◌, ◌∷◌, [], true, IfOk};
ghost use Rattle.model_terms.specs.Worlds as worlds;
ghost use Rattle.model_events.specs.Functions as functions;
ghost use Rattle.model_standing.specs.Laws.{MembersStand};
ghost use Rattle.acl_signatures.specs.Candidates.{seen_candidates};
ghost use Rattle.acl_cliques.specs.Worlds.{names_of};
ghost use Rattle.acl_admit.specs.Ready.{members_reach};

use crate::admit_functions;
use acl_base::{SymId, Word};
use acl_check::Member;
use acl_code::Terms;
use acl_heap::Heap;
use acl_terms::{Core, Rule, ThreadFault};
use acl_worlds::World;
use sqlite_items::Items;
use std::alloc::{AllocError, Global};
use std::test::*;

/// A function of one formal with this variable as its body.
#[tactic(auto, using(crate::proofs::TestLemmas::one_reach, crate::proofs::TestLemmas::one_stands))]
fn one_function(alloc: Global, _heap: &Heap, body: u32) -> Result<Vec<Member>, AllocError>
    ensures names { IfOk result (λ ms. names_of ms.items ≡ 200 ∷ []) }
    ensures reach { IfOk result (λ ms. members_reach ms.items ≡ 0) }
    ensures stand { IfOk result (λ ms. (w : worlds.World) → MembersStand w (functions.members (seen_candidates _heap.now ms.items (true ∷ [])))) }
{
    let formals = Items::from_slice(alloc, &[SymId(201)])?;
    let mut members = Vec::new(alloc);
    members.push(Member {
        name: SymId(200),
        formals,
        stobjs: Items::new(alloc),
        guard: Core::Const(Word::Small(1)),
        body: Core::Var(SymId(body)),
    })?;
    Ok(members)
}

/// Whether the function stands in a world that had no definitions, and the table has the terms of its guard and body.
#[tactic(auto, using(acl_worlds::proofs::PrimitiveLemmas::no_primitives, crate::proofs::TestLemmas::new_name))]
fn admitted(alloc: Global, body: u32) -> Result<bool, ThreadFault> {
    let heap = Heap::new(alloc);
    let mut world = World::new(alloc, &[])?;
    let mut terms = Terms::new(alloc);
    let members = one_function(alloc, &heap, body)?;
    match admit_functions(alloc, &mut world, &mut terms, &heap, members, &[true]) {
        Ok(()) => Ok(world.find(SymId(200)).is_some() & (terms.len() == 2)),
        Err(fault) => Err(fault),
    }
}

/// Whether the variable of the body is no formal.
fn is_refused(answer: Result<bool, ThreadFault>) -> bool {
    match answer {
        Ok(_there) => false,
        Err(ThreadFault::Memory) => false,
        Err(ThreadFault::Rule { rule, place }) => {
            (rule == Rule::S11) & (place.as_slice() == [0u32, 1].as_slice())
        }
    }
}

#[test]
fn one_that_enters_and_one_that_does_not(rt: HostRuntime) -> Result<(), Fail> {
    let entered = match admitted(rt.alloc(), 201) {
        Ok(there) => there,
        Err(_fault) => false,
    };
    assert!(rt; entered);
    let refused = is_refused(admitted(rt.alloc(), 202));
    assert!(rt; refused);
    Ok(())
}
