//! A form and its copy.

use crate::copy_core;
use acl_base::{SymId, Word};
use acl_terms::Core;
use sqlite_items::Items;
use std::test::*;

#[test]
fn a_call_is_copied(rt: HostRuntime) -> Result<(), Fail> {
    let mut parts = Items::new(rt.alloc());
    parts.push(Core::Var(SymId(200)))?;
    parts.push(Core::Const(Word::Small(3)))?;
    let form = Core::Call(SymId(10), parts);
    let copy = copy_core(rt.alloc(), &form)?;
    match copy {
        Core::Call(function, actuals) => {
            assert!(rt; function == SymId(10));
            assert_eq!(rt; actuals.len(), 2);
        }
        _ => assert!(rt; false),
    }
    Ok(())
}
