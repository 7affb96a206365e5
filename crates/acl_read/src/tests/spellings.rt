//! Integers and symbols as they may be written.

use super::first;
use acl_base::{SymId, Word};
use acl_heap::{Heap, Seen};
use std::alloc::Global;
use std::test::*;

/// Whether a whole input is this integer.
fn is_integer(alloc: Global, bytes: &[u8], want: i128) -> bool {
    let mut heap = Heap::new(alloc);
    match first(alloc, &mut heap, bytes) {
        Ok(Some(w)) => match heap.look(w) {
            Seen::Integer(n) => n == want,
            _ => false,
        },
        _ => false,
    }
}

#[test]
fn both_ends_of_128_bits(rt: HostRuntime) {
    assert!(rt;
        is_integer(
            rt.alloc(),
            b"170141183460469231731687303715884105727",
            i128::MAX
        )
    );
    assert!(rt;
        is_integer(
            rt.alloc(),
            b"-170141183460469231731687303715884105728",
            i128::MIN
        )
    );
    assert!(rt; is_integer(rt.alloc(), b"#x7fffffffffffffffffffffffffffffff", i128::MAX));
    assert!(rt;
        is_integer(
            rt.alloc(),
            b"#X-80000000000000000000000000000000",
            i128::MIN
        )
    );
}

#[test]
fn integers_in_four_bases(rt: HostRuntime) {
    assert!(rt; is_integer(rt.alloc(), b"+12.", 12));
    assert!(rt; is_integer(rt.alloc(), b"#xff", 255));
    assert!(rt; is_integer(rt.alloc(), b"#B-101", -5));
    assert!(rt; is_integer(rt.alloc(), b"#o17", 15));
}

/// Whether a whole input is the symbol QUOTE, the third of all.
fn is_quote(alloc: Global, bytes: &[u8]) -> bool {
    let mut heap = Heap::new(alloc);
    first(alloc, &mut heap, bytes) == Ok(Some(Word::Sym(SymId(2))))
}

#[test]
fn spellings_of_a_name(rt: HostRuntime) {
    assert!(rt; is_quote(rt.alloc(), b"quote"));
    assert!(rt; is_quote(rt.alloc(), b"Quote "));
    assert!(rt; is_quote(rt.alloc(), b"|QUOTE|"));
    assert!(rt; is_quote(rt.alloc(), b"qu|OT|e"));
    assert!(rt; is_quote(rt.alloc(), b"q|\\U|ote"));
}

#[test]
fn spellings_of_a_package(rt: HostRuntime) {
    assert!(rt; is_quote(rt.alloc(), b"acl2::quote"));
    assert!(rt; is_quote(rt.alloc(), b"COMMON-LISP::QUOTE"));
    assert!(rt; is_quote(rt.alloc(), b"|COMMON-LISP|::quote"));
    assert!(rt; is_quote(rt.alloc(), b"; one\n#| two #| |# |# quote"));
}
