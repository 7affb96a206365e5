//! An item, a compacted table, a hash field.

use super::*;
use acl_base::Word;
use acl_heap::Heap;
use std::alloc::Global;
use std::test::*;

#[test]
fn an_item_is_written(rt: HostRuntime) -> Result<(), Fail> {
    let alloc: Global = rt.alloc();
    let mut heap = Heap::new(alloc);
    let mut lists = Lists::new(alloc);
    let seven = lists.value(alloc, &heap, Word::Small(7))?;
    let old = lists.repeated(seven, 2)?;
    let nine = lists.value(alloc, &heap, Word::Small(9))?;
    let new = lists.with_item(alloc, old, 1, nine)?;
    assert!(rt; lists.size(new) == 2);
    if let Some(item) = lists.item(new, 1) {
        assert!(rt; lists.copy_out(item, &mut heap)? == Word::Small(9));
    }
    assert!(rt; lists.len() == 7);
    let mut roots = [new];
    lists.compact(alloc, &mut roots)?;
    assert!(rt; lists.len() == 5);
    Ok(())
}

#[test]
fn a_key_is_found(rt: HostRuntime) -> Result<(), Fail> {
    let alloc: Global = rt.alloc();
    let heap = Heap::new(alloc);
    let mut lists = Lists::new(alloc);
    let none = lists.no_pairs()?;
    let seven = lists.value(alloc, &heap, Word::Small(7))?;
    let one = lists.put_pair(seven, seven, none)?;
    assert!(rt; lists.key_count(alloc, one)? == 1);
    assert!(rt; lists.value_at(alloc, one, &heap, Word::Small(7))?.is_some());
    let without = lists.without_key(alloc, one, &heap, Word::Small(7))?;
    assert!(rt; lists.key_count(alloc, without)? == 0);
    Ok(())
}
