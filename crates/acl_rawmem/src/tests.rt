use crate::RawArray;
use std::alloc::{AllocError, Global};
use std::process::Abort;
use std::test::*;

/// A value of sixteen bytes.
#[derive(Clone, Copy, PartialEq, Eq)]
struct Pair {
    first: u64,
    second: u64,
}

fn shows_no_old_element<T: Copy + PartialEq>(
    rt: &impl Abort,
    alloc: Global,
    old: T,
    other: T,
    fill: T,
) -> Result<(), AllocError> {
    let mut array = RawArray::filled(alloc, 5, old)?;
    assert!(rt; array.get(4) == old);
    array.set(0, other);
    array.set(4, other);
    array.resize(2, fill)?;
    assert_eq!(rt; array.len(), 2);
    array.resize(9, fill)?;
    assert_eq!(rt; array.len(), 9);
    assert!(rt; array.get(0) == other && array.get(1) == old);
    for index in 2..array.len() {
        assert!(rt; array.get(index) == fill);
    }
    array.resize(0, old)?;
    assert_eq!(rt; array.len(), 0);
    array.resize(3, old)?;
    assert!(rt; array.get(0) == old && array.get(2) == old);
    Ok(())
}

#[test]
fn resizes_down_and_up(rt: HostRuntime) -> Result<(), Fail> {
    shows_no_old_element(&rt, rt.alloc(), 1u8, 2, 255)?;
    shows_no_old_element(&rt, rt.alloc(), 'a', 'b', 'c')?;
    shows_no_old_element(&rt, rt.alloc(), -1i64, 1 << 62, 0)?;
    shows_no_old_element(&rt, rt.alloc(), wide(1, 2), wide(2, 1), wide(3, 3))?;
    Ok(())
}

fn wide(first: u64, second: u64) -> Pair {
    Pair { first, second }
}

#[test]
fn holds_nothing_and_much(rt: HostRuntime) -> Result<(), Fail> {
    let nothing = RawArray::filled(rt.alloc(), 0, 7u8)?;
    assert_eq!(rt; nothing.len(), 0);
    let mut sum = 0u64;
    let mut array = RawArray::filled(rt.alloc(), 100_000, 3u32)?;
    array.set(99_999, 10);
    for index in 0..array.len() {
        sum = sum.wrapping_add(array.get(index) as u64);
    }
    assert_eq!(rt; sum, 300_007);
    Ok(())
}

#[test]
fn refuses_more_than_a_block_may_have(rt: HostRuntime) -> Result<(), Fail> {
    assert!(rt; RawArray::filled(rt.alloc(), usize::MAX, 1u64).is_err());
    let mut array = RawArray::filled(rt.alloc(), 2, 1u64)?;
    assert!(rt; array.resize(usize::MAX, 9).is_err());
    assert_eq!(rt; array.len(), 2);
    assert!(rt; array.get(0) == 1 && array.get(1) == 1);
    Ok(())
}
