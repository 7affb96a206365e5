use crate::{integers, kinds, narrow};
use acl_base::Word;
use acl_heap::Heap;
use acl_syms::Symbols;
use model_prims::Arithmetic;
use std::test::*;

#[test]
fn quotients_meet_in_both_widths(rt: HostRuntime) -> Result<(), Fail> {
    assert!(rt; integers::floor(-7, 2) == Some(-4));
    assert!(rt; narrow::floor(-7, 2) == Some(-4));
    assert!(rt; narrow::floor(7, -2) == Some(-4));
    assert!(rt; narrow::floor(-7, -2) == Some(3));
    assert!(rt; narrow::floor(i64::MIN, -1) == None);
    assert!(rt; integers::floor(i64::MIN as i128, -1) == Some(9_223_372_036_854_775_808));
    assert!(rt; integers::floor(i128::MIN, -1) == None);
    assert!(rt; narrow::modulo(7, -2) == -1);
    assert!(rt; narrow::modulo(-7, 2) == 1);
    assert!(rt; narrow::remainder(-7, 2) == -1);
    assert!(rt; narrow::truncate(-7, 2) == Some(-3));
    assert!(rt; narrow::truncate(i64::MIN, -1) == None);
    Ok(())
}

/// No contract says that the short way is taken.
#[test]
fn small_operands_stay_in_64_bits(rt: HostRuntime) -> Result<(), Fail> {
    let syms = Symbols::new(rt.alloc())?;
    let heap = Heap::new(rt.alloc());
    let none = Word::Big(0);
    assert!(rt; kinds::small(Word::Small(-3)) == Some(-3));
    assert!(rt; kinds::small(none) == None);
    assert!(rt; narrow::of_two(Arithmetic::Plus, 1, 2, &syms) == Some(3));
    assert!(rt; narrow::of_two(Arithmetic::Plus, i64::MAX, 1, &syms) == None);
    assert!(rt; narrow::of_two(Arithmetic::Times, -3, 5, &syms) == Some(-15));
    assert!(rt; narrow::of_two(Arithmetic::Logand, -1, 6, &syms) == Some(6));
    assert!(rt; narrow::of_one(Arithmetic::Minus, 5, none, &heap, &syms) == Some(-5));
    assert!(rt; narrow::of_one(Arithmetic::Minus, i64::MIN, none, &heap, &syms) == None);
    Ok(())
}
