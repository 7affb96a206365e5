use super::*;
use acl_base::SymId;
use acl_heap::Heap;
use acl_terms::{Core, Entry, Out, Scope, Signature};
use acl_worlds::World;
use sqlite_items::Items;
use std::test::*;

#[test]
#[tactic(auto, using(acl_worlds::proofs::PrimitiveLemmas::no_primitives, crate::proofs::FormLemmas::var_shallow))]
fn a_variable_gives_its_kind(rt: HostRuntime) -> Result<(), Fail> {
    let heap = Heap::new(rt.alloc());
    let world = World::new(rt.alloc(), &[])?;
    let scope = Scope::from_entries(
        rt.alloc(),
        &[Entry {
            name: SymId(5),
            kind: Out::Object(SymId(5)),
        }],
    )?;
    let core = Core::Var(SymId(5));
    let outs = outputs(rt.alloc(), &world, &heap, &[], &scope, &core)?;
    assert!(rt; matches!(outs, Some(_)));
    assert!(rt; !congruent(&world, &heap, SymId(5), SymId(5)));
    assert!(rt; repeats(&[SymId(1), SymId(2), SymId(1)]));
    assert!(rt; !repeats(&[SymId(1), SymId(2)]));
    Ok(())
}

#[test]
#[tactic(auto, using(acl_worlds::proofs::PrimitiveLemmas::no_primitives))]
fn an_instance_has_congruent_actuals(rt: HostRuntime) -> Result<(), Fail> {
    let heap = Heap::new(rt.alloc());
    let world = World::new(rt.alloc(), &[])?;
    let plain = Signature {
        ins: Items::new(rt.alloc()),
        outs: Items::from_slice(rt.alloc(), &[Out::Ordinary])?,
    };
    assert!(rt; instantiate(rt.alloc(), &world, &heap, &plain, &[])?.is_some());
    assert!(rt; instantiate(rt.alloc(), &world, &heap, &plain, &[SymId(5)])?.is_none());
    Ok(())
}
