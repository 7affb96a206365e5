//! An object of a value and an array, and a name that has no object.

ghost use Rattle.std.specs.Prelude.{◌≡◌, IfOk};
ghost use Rattle.acl_terms.specs.Definitions.{name_in, FitsTable, definition_reach};

use super::*;
use acl_base::{LayoutId, Word};
use acl_terms::{Definition, Descriptor, FieldDescriptor, Shape};
use sqlite_items::Items;
use std::test::*;

fn object(alloc: Global, name: u32) -> Result<Definition, AllocError>
    ensures name { IfOk result (λ d. name_in d ≡ name) }
    ensures fits { IfOk result FitsTable }
    ensures lies { IfOk result (λ d. definition_reach d ≡ 0) }
{
    let spec = Word::Sym(SymId(0));
    let mut fields = Items::new(alloc);
    fields.push(FieldDescriptor {
        name: SymId(9),
        shape: Shape::Scalar {
            spec,
            initial: Word::Small(7),
        },
        made: Items::new(alloc),
    })?;
    fields.push(FieldDescriptor {
        name: SymId(10),
        shape: Shape::Array {
            spec,
            initial: Word::Small(3),
            len: 2,
            resizable: false,
        },
        made: Items::new(alloc),
    })?;
    Ok(Definition::Object {
        descriptor: Descriptor {
            name: SymId(name),
            recognizer: SymId(6),
            creator: SymId(7),
            fields,
            congruent_to: None,
        },
        layout: LayoutId(0),
        class: SymId(name),
    })
}

#[test]
#[tactic(auto, using(acl_worlds::proofs::PrimitiveLemmas::no_primitives))]
fn an_object_begins(rt: HostRuntime) -> Result<(), Fail> {
    let alloc: Global = rt.alloc();
    let heap = Heap::new(alloc);
    let mut world = World::new(alloc, &[])?;
    let stobj = object(alloc, 5)?;
    world.add(stobj)?;
    let mut lists = Lists::new(alloc);
    let list = new_list(alloc, &mut lists, &world, &heap, SymId(5))?;
    assert_eq!(rt; lists.size(list), 2);
    if let Some(array) = lists.item(list, 1) {
        assert_eq!(rt; lists.size(array), 2);
    }
    let none = new_list(alloc, &mut lists, &world, &heap, SymId(6))?;
    assert_eq!(rt; lists.size(none), 0);
    Ok(())
}
