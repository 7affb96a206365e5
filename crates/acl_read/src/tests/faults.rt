//! Each cause of a fault, with its offset. An input or a table of symbols that is too long would need gigabytes.

use super::{first, repeated};
use crate::{TextCause, TextFault};
use acl_heap::Heap;
use std::alloc::Global;
use std::test::*;

/// Whether this fault stands first in a whole input.
fn has_fault(alloc: Global, bytes: &[u8], cause: TextCause, offset: u64) -> bool {
    let mut heap = Heap::new(alloc);
    match first(alloc, &mut heap, bytes) {
        Ok(_) => false,
        Err(fault) => fault == TextFault { cause, offset },
    }
}

#[test]
fn brackets_that_close_nothing(rt: HostRuntime) {
    assert!(rt; has_fault(rt.alloc(), b")", TextCause::StrayClose, 0));
    assert!(rt; has_fault(rt.alloc(), b"(a ')", TextCause::StrayClose, 4));
    assert!(rt; has_fault(rt.alloc(), b"#| ) |# ) )", TextCause::StrayClose, 8));
}

#[test]
fn dots_where_none_may_stand(rt: HostRuntime) {
    assert!(rt; has_fault(rt.alloc(), b".)", TextCause::BadDot, 0));
    assert!(rt; has_fault(rt.alloc(), b"( . a)", TextCause::BadDot, 2));
    assert!(rt; has_fault(rt.alloc(), b"(1 . 2 3)", TextCause::BadDot, 3));
    assert!(rt; has_fault(rt.alloc(), b"(a . b . c)", TextCause::BadDot, 7));
    assert!(rt; has_fault(rt.alloc(), b"(a . )", TextCause::BadDot, 3));
}

#[test]
fn commas_outside_a_backquote(rt: HostRuntime) {
    assert!(rt; has_fault(rt.alloc(), b",a", TextCause::CommaOutside, 0));
    assert!(rt; has_fault(rt.alloc(), b"`(a ,(b ,c))", TextCause::CommaOutside, 8));
    assert!(rt; has_fault(rt.alloc(), b"`(a . ,@b)", TextCause::CommaOutside, 6));
}

#[test]
fn tokens_that_are_wrong(rt: HostRuntime) {
    assert!(rt; has_fault(rt.alloc(), b"1/2", TextCause::BadToken, 0));
    assert!(rt; has_fault(rt.alloc(), b" `(a `b)", TextCause::BadToken, 5));
    assert!(rt; has_fault(rt.alloc(), b"a:b:c ", TextCause::BadToken, 0));
    assert!(rt; has_fault(rt.alloc(), b"(a \xc8)", TextCause::BadByte, 3));
}

#[test]
fn integers_of_more_than_128_bits(rt: HostRuntime) {
    assert!(rt;
        has_fault(
            rt.alloc(),
            b" 170141183460469231731687303715884105728 ",
            TextCause::IntegerTooWide,
            1
        )
    );
    assert!(rt;
        has_fault(
            rt.alloc(),
            b"-170141183460469231731687303715884105729",
            TextCause::IntegerTooWide,
            0
        )
    );
}

#[test]
fn packages_that_are_not_known(rt: HostRuntime) {
    assert!(rt; has_fault(rt.alloc(), b"(q::x)", TextCause::UnknownPackage, 1));
    assert!(rt; has_fault(rt.alloc(), b"%::v ", TextCause::UnknownPackage, 0));
}

#[test]
fn forms_that_do_not_end(rt: HostRuntime) {
    assert!(rt; has_fault(rt.alloc(), b" (a \"b", TextCause::Unfinished, 1));
    assert!(rt; has_fault(rt.alloc(), b" #| #| |# b", TextCause::Unfinished, 1));
    assert!(rt; has_fault(rt.alloc(), b"(a .", TextCause::Unfinished, 0));
}

#[test]
fn forms_that_are_too_deep(rt: HostRuntime) -> Result<(), Fail> {
    let text = repeated(rt.alloc(), b"", b"(", 201)?;
    assert!(rt; has_fault(rt.alloc(), text.as_slice(), TextCause::TooDeep, 200));
    Ok(())
}

#[test]
fn forms_of_too_many_bytes(rt: HostRuntime) -> Result<(), Fail> {
    let text = repeated(rt.alloc(), b"\"", b"a", 1_048_576)?;
    assert!(rt;
        has_fault(
            rt.alloc(),
            text.as_slice(),
            TextCause::FormTooLong,
            1_048_576
        )
    );
    Ok(())
}

#[test]
fn forms_that_are_too_heavy(rt: HostRuntime) -> Result<(), Fail> {
    let mut text = repeated(rt.alloc(), b" (", b"'1", 300_000)?;
    text.push(b')')?;
    assert!(rt; has_fault(rt.alloc(), text.as_slice(), TextCause::TooLarge, 1));
    Ok(())
}
