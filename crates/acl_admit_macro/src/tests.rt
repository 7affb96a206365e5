//! A macro that enters a world, and one whose body has a variable that is no formal.

ghost use Rattle.std.specs.Prelude.{◌≡◌, ℕ, true, IfOk};
ghost use Rattle.model_terms.specs.Worlds as worlds;
ghost use Rattle.model_slots_laws.specs.Standing.{functions_stand};
ghost use Rattle.acl_terms.specs.Forms.{seen_core};
ghost use Rattle.acl_admit_macro.specs.Entered.{expanded_reach};

use crate::{ExpandedMacro, enter_macro};
use acl_base::SymId;
use acl_code::Terms;
use acl_heap::Heap;
use acl_terms::{Core, MacroFormals, Rule, ThreadFault};
use acl_worlds::World;
use sqlite_items::Items;
use std::alloc::{AllocError, Global};
use std::test::*;

/// A macro of one formal with this variable as its body.
#[tactic(auto, using(crate::proofs::TestLemmas::one_reach))]
fn one_macro(alloc: Global, _heap: &Heap, body: u32) -> Result<ExpandedMacro, AllocError>
    ensures name { IfOk result (λ m. m.name.0 ≡ 200) }
    ensures reach { IfOk result (λ m. expanded_reach m ≡ 0) }
    ensures stand { IfOk result (λ m. (w : worlds.World) → functions_stand w (seen_core _heap.now m.body) ≡ true) }
{
    let required = Items::from_slice(alloc, &[SymId(201)])?;
    let formals = MacroFormals {
        required,
        optional: Items::new(alloc),
        rest: None,
        keys: None,
    };
    Ok(ExpandedMacro {
        name: SymId(200),
        formals,
        body: Core::Var(SymId(body)),
    })
}

/// Whether the macro stands in a world that had no definitions, and the table has the term of its body.
#[tactic(auto, using(acl_worlds::proofs::PrimitiveLemmas::no_primitives, crate::proofs::TestLemmas::unused))]
fn entered(alloc: Global, body: u32) -> Result<bool, ThreadFault> {
    let heap = Heap::new(alloc);
    let mut world = World::new(alloc, &[])?;
    let mut terms = Terms::new(alloc);
    let expanded = one_macro(alloc, &heap, body)?;
    match enter_macro(alloc, &mut world, &mut terms, &heap, expanded) {
        Ok(term) => Ok((term.0 == 0) & (terms.len() == 1) & world.find(SymId(200)).is_some()),
        Err(fault) => Err(fault),
    }
}

/// Whether the variable of the body is no formal.
fn is_refused(answer: Result<bool, ThreadFault>) -> bool {
    match answer {
        Ok(_there) => false,
        Err(ThreadFault::Memory) => false,
        Err(ThreadFault::Rule { rule, place }) => {
            (rule == Rule::S11) & (place.as_slice() == [0u32, 1].as_slice())
        }
    }
}

#[test]
fn one_that_enters_and_one_that_does_not(rt: HostRuntime) -> Result<(), Fail> {
    let entered_here = match entered(rt.alloc(), 201) {
        Ok(there) => there,
        Err(_fault) => false,
    };
    assert!(rt; entered_here);
    let refused = is_refused(entered(rt.alloc(), 202));
    assert!(rt; refused);
    Ok(())
}
