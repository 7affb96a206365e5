//! Keys and fields, each call once.

use super::*;
use acl_base::{SymId, Word};
use acl_heap::Heap;
use acl_pool::Pool;
use std::alloc::Global;
use std::test::*;

#[test]
fn equal_objects_have_equal_keys(rt: HostRuntime) -> Result<(), Fail> {
    let alloc: Global = rt.alloc();
    let mut heap = Heap::new(alloc);
    let first = heap.string(b"A")?;
    let second = heap.string(b"A")?;
    let one = heap.cons(first, Word::Small(7))?;
    let two = heap.cons(second, Word::Small(7))?;
    assert!(rt; Key::make(alloc, &heap, one)? == Key::make(alloc, &heap, two)?);
    assert!(rt; Key::make(alloc, &heap, first)? == Key::make(alloc, &heap, second)?);
    let wide = heap.int(1_i128 << 64)?;
    let again = heap.int(1_i128 << 64)?;
    assert!(rt; Key::make(alloc, &heap, wide)? == Key::make(alloc, &heap, again)?);
    Ok(())
}

#[test]
fn different_objects_have_different_keys(rt: HostRuntime) -> Result<(), Fail> {
    let alloc: Global = rt.alloc();
    let mut heap = Heap::new(alloc);
    let five = Key::make(alloc, &heap, Word::Small(5))?;
    assert!(rt; five != Key::make(alloc, &heap, Word::Small(-6))?);
    assert!(rt; five != Key::make(alloc, &heap, Word::Sym(SymId(5)))?);
    let wide = heap.int((1_i128 << 64) + 5)?;
    assert!(rt; five != Key::make(alloc, &heap, wide)?);
    let short = heap.string(b"A")?;
    let long = heap.string(b"AB")?;
    assert!(rt; Key::make(alloc, &heap, short)? != Key::make(alloc, &heap, long)?);
    let one = heap.cons(short, long)?;
    let two = heap.cons(long, short)?;
    assert!(rt; Key::make(alloc, &heap, one)? != Key::make(alloc, &heap, two)?);
    Ok(())
}

// As deep on the side of the car, and as long on that of the cdr, as a value may nearly be.
#[test]
fn a_key_of_a_deep_object(rt: HostRuntime) -> Result<(), Fail> {
    let alloc: Global = rt.alloc();
    let mut heap = Heap::new(alloc);
    let mut deep = Word::Sym(SymId(1));
    for _ in 0..500_000 {
        deep = heap.cons(deep, Word::Small(0))?;
    }
    let mut long = Word::Sym(SymId(1));
    for _ in 0..500_000 {
        long = heap.cons(Word::Small(0), long)?;
    }
    let key = Key::make(alloc, &heap, deep)?;
    assert!(rt; key == Key::make(alloc, &heap, deep)?);
    assert!(rt; key != Key::make(alloc, &heap, long)?);
    Ok(())
}

#[test]
fn an_entry_removed_leaves_nothing_in_use(rt: HostRuntime) -> Result<(), Fail> {
    let alloc: Global = rt.alloc();
    let mut heap = Heap::new(alloc);
    let name = heap.string(b"a key of some length")?;
    let value = heap.cons(name, Word::Small(1))?;
    let mut pool = Pool::new(alloc);
    let mut field = HashField::new(alloc);
    let key = Key::make(alloc, &heap, name)?;
    assert!(rt; field.get(&key).is_none());
    field.put(
        &mut pool,
        &heap,
        Key::make(alloc, &heap, name)?,
        name,
        value,
    )?;
    assert_eq!(rt; field.count(), 1);
    assert_eq!(rt; pool.used(), 9);
    assert!(rt; field.get(&key).is_some());
    field.put(
        &mut pool,
        &heap,
        Key::make(alloc, &heap, name)?,
        name,
        Word::Small(2),
    )?;
    assert_eq!(rt; field.count(), 1);
    assert_eq!(rt; pool.used(), 4);
    field.remove(&mut pool, &key);
    assert_eq!(rt; field.count(), 0);
    assert_eq!(rt; pool.used(), 0);
    assert!(rt; field.get(&key).is_none());
    Ok(())
}

#[test]
fn a_field_cleared_leaves_nothing_in_use(rt: HostRuntime) -> Result<(), Fail> {
    let alloc: Global = rt.alloc();
    let mut heap = Heap::new(alloc);
    let name = heap.string(b"name")?;
    let pair = heap.cons(name, name)?;
    let mut pool = Pool::new(alloc);
    let mut field = HashField::new(alloc);
    field.put(&mut pool, &heap, Key::make(alloc, &heap, name)?, name, pair)?;
    field.put(&mut pool, &heap, Key::make(alloc, &heap, pair)?, pair, name)?;
    field.put(
        &mut pool,
        &heap,
        Key::make(alloc, &heap, Word::Small(3))?,
        Word::Small(3),
        pair,
    )?;
    assert_eq!(rt; field.count(), 3);
    assert_eq!(rt; pool.used(), 19);
    field.clear(&mut pool);
    assert_eq!(rt; field.count(), 0);
    assert_eq!(rt; pool.used(), 0);
    Ok(())
}

#[test]
fn empty_places_are_not_seen(rt: HostRuntime) -> Result<(), Fail> {
    let alloc: Global = rt.alloc();
    let mut heap = Heap::new(alloc);
    let name = heap.string(b"name")?;
    let mut pool = Pool::new(alloc);
    let mut field = HashField::new(alloc);
    let key = Key::make(alloc, &heap, name)?;
    let entry = Entry {
        key: pool.put(&heap, name)?,
        value: pool.put(&heap, Word::Small(4))?,
    };
    field.place(Key::make(alloc, &heap, name)?)?;
    assert_eq!(rt; field.count(), 0);
    assert!(rt; field.get(&key).is_none());
    assert!(rt; field.swap(&key, Some(entry)).is_none());
    assert_eq!(rt; field.count(), 1);
    assert!(rt; field.get(&key).is_some());
    assert!(rt; field.swap(&key, None) == Some(entry));
    assert_eq!(rt; field.count(), 0);
    field.tidy(&key);
    assert!(rt; field.get(&key).is_none());
    Ok(())
}
