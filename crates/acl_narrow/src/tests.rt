//! A form that is narrow, and one that is too deep.

use crate::is_narrow;
use acl_base::{SymId, Word};
use acl_heap::Heap;
use acl_terms::Core;
use sqlite_items::{Boxed, Items};
use std::test::*;

#[test]
fn depth_and_places(rt: HostRuntime) -> Result<(), Fail> {
    let heap = Heap::new(rt.alloc());
    let mut parts = Items::new(rt.alloc());
    parts.push(Core::Var(SymId(200)))?;
    parts.push(Core::Const(Word::Small(3)))?;
    let form = Core::Call(SymId(10), parts);
    assert!(rt; is_narrow(&heap, &form, 2));
    assert!(rt; !is_narrow(&heap, &form, 1));
    let logic = Boxed::new(rt.alloc(), form)?;
    let exec = Boxed::new(rt.alloc(), Core::Var(SymId(200)))?;
    let both = Core::MustBeEqual(logic, exec);
    assert!(rt; is_narrow(&heap, &both, 2048));
    assert!(rt; !is_narrow(&heap, &both, 2));
    Ok(())
}
