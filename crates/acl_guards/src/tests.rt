//! A test and what is asked behind it, in their order.

use crate::guard::guarded;
use acl_base::{SymId, Word};
use acl_heap::Heap;
use acl_terms::Core;
use std::test::*;

fn is_test(core: &Core) -> bool {
    matches!(core, Core::Var(SymId(200)))
}

fn is_rest(core: &Core) -> bool {
    matches!(core, Core::Const(Word::Small(3)))
}

fn asks_in_order(core: &Core) -> bool {
    match core {
        Core::If(test, rest, _) => is_test(test.get()) & is_rest(rest.get()),
        _ => false,
    }
}

#[test]
fn test_before_rest(rt: HostRuntime) -> Result<(), Fail> {
    let heap = Heap::new(rt.alloc());
    let test = Core::Var(SymId(200));
    let rest = Core::Const(Word::Small(3));
    let both = guarded(rt.alloc(), &heap, test, rest)?;
    assert!(rt; asks_in_order(&both));
    Ok(())
}
