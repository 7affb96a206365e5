//! Two definitions that enter a world, and one that is alone.

ghost use Rattle.std.specs.Prelude.{◌≡◌};
ghost use Rattle.acl_terms.specs.Definitions.{name_in, FitsTable};

use crate::add_all;
use acl_base::{SymId, Word};
use acl_terms::Definition;
use acl_worlds::World;
use std::test::*;

fn constant(name: u32) -> Definition
    ensures name { name_in result ≡ name }
    ensures fits { FitsTable result }
{
    Definition::Constant {
        name: SymId(name),
        value: Word::Small(3),
    }
}

#[test]
#[tactic(auto, using(acl_worlds::proofs::PrimitiveLemmas::no_primitives, crate::proofs::TestLemmas::two_distinct))]
fn two_definitions(rt: HostRuntime) -> Result<(), Fail> {
    let mut world = World::new(rt.alloc(), &[])?;
    let mut both = Vec::new(rt.alloc());
    both.push(constant(200))?;
    both.push(constant(201))?;
    add_all(&mut world, both)?;
    assert!(rt; world.find(SymId(200)).is_some());
    assert!(rt; world.find(SymId(201)).is_some());
    assert!(rt; world.find(SymId(202)).is_none());
    Ok(())
}
