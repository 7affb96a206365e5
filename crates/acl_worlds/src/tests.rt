ghost use Rattle.std.specs.Prelude.{◌≡◌};
ghost use Rattle.acl_terms.specs.Definitions.{name_in, FitsTable};

use super::*;
use acl_base::Word;
use std::test::*;

fn constant(name: u32) -> Definition
    ensures name { name_in result ≡ name }
    ensures fits { FitsTable result }
{
    Definition::Constant {
        name: SymId(name),
        value: Word::Small(3),
    }
}

#[test]
#[tactic(auto, using(crate::proofs::PrimitiveLemmas::no_primitives))]
fn a_definition_is_found_by_its_name(rt: HostRuntime) -> Result<(), Fail> {
    let heap = Heap::new(rt.alloc());
    let mut world = World::new(rt.alloc(), &[])?;
    assert!(rt; world.find(SymId(5)).is_none());
    let f = world.add(constant(5))?;
    assert!(rt; world.at(f).name() == SymId(5));
    assert!(rt; world.find(SymId(5)) == Some(f));
    assert!(rt; world.look(SymId(5), &heap).is_some());
    assert!(rt; world.look(SymId(6), &heap).is_none());
    Ok(())
}

#[test]
#[tactic(auto, using(crate::proofs::PrimitiveLemmas::no_primitives))]
fn a_world_is_cut_back(rt: HostRuntime) -> Result<(), Fail> {
    let mut world = World::new(rt.alloc(), &[])?;
    let mark = world.mark();
    let f = world.add(constant(5))?;
    world.settle(f, constant(5));
    let layout = Layout {
        fields: Vec::new(rt.alloc()),
    };
    let first = world.add_layout(layout)?;
    assert_eq!(rt; first.0, 0);
    assert_eq!(rt; world.layouts().len(), 1);
    world.cut_to(mark);
    assert_eq!(rt; world.layouts().len(), 0);
    assert!(rt; world.find(SymId(5)).is_none());
    Ok(())
}
