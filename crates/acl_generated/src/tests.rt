//! A stobj of a value, a hash field and an array of stobjs.

use crate::generated_functions;
use acl_base::{SymId, Test, Word};
use acl_heap::Heap;
use acl_terms::{Descriptor, FieldDescriptor, Shape};
use sqlite_items::Items;
use std::alloc::{AllocError, Global};
use std::test::*;

fn field(
    alloc: Global,
    name: u32,
    shape: Shape,
    names: &[SymId],
) -> Result<FieldDescriptor, AllocError> {
    let made = Items::from_slice(alloc, names)?;
    Ok(FieldDescriptor {
        name: SymId(name),
        shape,
        made,
    })
}

fn described(alloc: Global) -> Result<Descriptor, AllocError> {
    let value = Shape::Scalar {
        spec: Word::Sym(SymId(0)),
        initial: Word::Small(7),
    };
    let children = Shape::Children {
        stobj: SymId(4),
        len: 2,
    };
    let mut fields = Items::new(alloc);
    fields.push(field(alloc, 10, value, &[SymId(11), SymId(12), SymId(13)])?)?;
    fields.push(field(alloc, 20, Shape::Hash(Test::Eql), &[SymId(21)])?)?;
    fields.push(field(alloc, 30, children, &[SymId(31), SymId(32)])?)?;
    Ok(Descriptor {
        name: SymId(5),
        recognizer: SymId(6),
        creator: SymId(7),
        fields,
        congruent_to: None,
    })
}

#[test]
fn functions_stand_in_order(rt: HostRuntime) -> Result<(), Fail> {
    let heap = Heap::new(rt.alloc());
    let descriptor = described(rt.alloc())?;
    let functions = generated_functions(rt.alloc(), &heap, &descriptor)?;
    assert_eq!(rt; functions.len(), 8);
    Ok(())
}
