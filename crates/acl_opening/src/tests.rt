//! The opening world has primitives and constants.

use crate::opening_world;
use acl_base::SymId;
use acl_heap::Heap;
use std::test::*;

#[test]
fn a_session_begins_with_its_world(rt: HostRuntime) -> Result<(), Fail> {
    let mut heap = Heap::new(rt.alloc());
    let world = opening_world(rt.alloc(), &mut heap)?;
    assert_eq!(rt; world.mark().definitions, 61);
    assert!(rt; world.find(SymId(6)).is_some());
    assert!(rt; world.find(SymId(127)).is_some());
    assert!(rt; world.find(SymId(165)).is_some());
    assert!(rt; world.find(SymId(166)).is_some());
    assert!(rt; world.find(SymId(1)).is_none());
    Ok(())
}
