//! A stobj without fields, in a world without definitions.

ghost use Rattle.std.specs.Prelude.{◌≡◌, [], IfOk, length, ◌≤◌};
ghost use Rattle.acl_terms.specs.Definitions.{descriptor_reach};
ghost use Rattle.acl_enter_stobj.specs.Examples.{IsBare};

use crate::enter_stobj;
use acl_base::SymId;
use acl_heap::Heap;
use acl_terms::Descriptor;
use acl_worlds::World;
use sqlite_items::Items;
use std::alloc::Global;
use std::test::*;

fn bare(alloc: Global) -> Descriptor
    ensures bare { IsBare result }
    ensures reach { descriptor_reach result ≡ 0 }
{
    Descriptor {
        name: SymId(5),
        recognizer: SymId(6),
        creator: SymId(7),
        fields: Items::new(alloc),
        congruent_to: None,
    }
}

#[test]
#[tactic(auto, using(acl_worlds::proofs::PrimitiveLemmas::no_primitives, crate::proofs::ExampleLemmas::bare_fresh))]
fn a_stobj_enters(rt: HostRuntime) -> Result<(), Fail> {
    let heap = Heap::new(rt.alloc());
    let mut world = World::new(rt.alloc(), &[])?;
    let descriptor = bare(rt.alloc());
    enter_stobj(rt.alloc(), &heap, &mut world, descriptor)?;
    assert_eq!(rt; world.mark().definitions, 3);
    assert_eq!(rt; world.mark().layouts, 1);
    assert!(rt; world.find(SymId(5)).is_some());
    assert!(rt; world.find(SymId(6)).is_some());
    assert!(rt; world.find(SymId(7)).is_some());
    Ok(())
}
