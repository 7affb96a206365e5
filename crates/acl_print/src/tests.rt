//! Printed forms, and sinks that fail.

ghost use Rattle.std.specs.Prelude.{◌≡◌, IfOk};
ghost use Rattle.acl_forms.specs.Forms.{IsWhole, Grown};

use crate::{PrintFault, print_to, text_of};
use acl_base::{SymId, Word};
use acl_edge::MemSink;
use acl_heap::{Heap, HeapFault};
use acl_syms::{SymFault, Symbols};
use std::alloc::Global;
use std::test::*;

/// Whether the symbol of this home and name, in this package, is printed so.
fn prints_symbol(
    alloc: Global,
    syms: &mut Symbols,
    package: &[u8],
    home: &[u8],
    name: &[u8],
    want: &[u8],
) -> Result<bool, SymFault> {
    let s = syms.intern(home, name)?;
    match syms.find_package(package) {
        Some(current) => {
            let heap = Heap::new(alloc);
            let text = text_of(alloc, Word::Sym(s), &heap, syms, current)?;
            Ok(text.as_slice() == want)
        }
        None => Ok(false),
    }
}

#[test]
fn names_stand_plainly(rt: HostRuntime) -> Result<(), Fail> {
    let mut syms = Symbols::new(rt.alloc())?;
    assert!(rt; prints_symbol(rt.alloc(), &mut syms, b"ACL2", b"ACL2", b"ABC-9", b"ABC-9")?);
    assert!(rt;
        prints_symbol(
            rt.alloc(),
            &mut syms,
            b"ACL2",
            b"ACL2",
            b"!$%&*+-./<=>?@[]^_{}~",
            b"!$%&*+-./<=>?@[]^_{}~"
        )?
    );
    assert!(rt; prints_symbol(rt.alloc(), &mut syms, b"ACL2", b"ACL2", b"1E", b"1E")?);
    assert!(rt; prints_symbol(rt.alloc(), &mut syms, b"ACL2", b"ACL2", b".A", b".A")?);
    assert!(rt; prints_symbol(rt.alloc(), &mut syms, b"ACL2", b"ACL2", b"+", b"+")?);
    Ok(())
}

#[test]
fn names_stand_between_bars(rt: HostRuntime) -> Result<(), Fail> {
    let mut syms = Symbols::new(rt.alloc())?;
    assert!(rt; prints_symbol(rt.alloc(), &mut syms, b"ACL2", b"ACL2", b"a", b"|a|")?);
    assert!(rt; prints_symbol(rt.alloc(), &mut syms, b"ACL2", b"ACL2", b"", b"||")?);
    assert!(rt; prints_symbol(rt.alloc(), &mut syms, b"ACL2", b"ACL2", b"A B", b"|A B|")?);
    assert!(rt; prints_symbol(rt.alloc(), &mut syms, b"ACL2", b"ACL2", b"A:B", b"|A:B|")?);
    assert!(rt; prints_symbol(rt.alloc(), &mut syms, b"ACL2", b"ACL2", b"#A", b"|#A|")?);
    Ok(())
}

#[test]
fn bars_and_backslashes_have_a_backslash(rt: HostRuntime) -> Result<(), Fail> {
    let mut syms = Symbols::new(rt.alloc())?;
    assert!(rt; prints_symbol(rt.alloc(), &mut syms, b"ACL2", b"ACL2", b"A|B", b"|A\\|B|")?);
    assert!(rt;
        prints_symbol(
            rt.alloc(),
            &mut syms,
            b"ACL2",
            b"ACL2",
            b"A\\B",
            b"|A\\\\B|"
        )?
    );
    Ok(())
}

#[test]
fn names_like_numbers_stand_between_bars(rt: HostRuntime) -> Result<(), Fail> {
    let mut syms = Symbols::new(rt.alloc())?;
    assert!(rt; prints_symbol(rt.alloc(), &mut syms, b"ACL2", b"ACL2", b"12", b"|12|")?);
    assert!(rt; prints_symbol(rt.alloc(), &mut syms, b"ACL2", b"ACL2", b"-12.", b"|-12.|")?);
    assert!(rt; prints_symbol(rt.alloc(), &mut syms, b"ACL2", b"ACL2", b"+1/2", b"|+1/2|")?);
    assert!(rt;
        prints_symbol(
            rt.alloc(),
            &mut syms,
            b"ACL2",
            b"ACL2",
            b"1.5E-3",
            b"|1.5E-3|"
        )?
    );
    assert!(rt; prints_symbol(rt.alloc(), &mut syms, b"ACL2", b"ACL2", b"...", b"|...|")?);
    Ok(())
}

#[test]
fn keywords_begin_with_a_colon(rt: HostRuntime) -> Result<(), Fail> {
    let mut syms = Symbols::new(rt.alloc())?;
    assert!(rt;
        prints_symbol(
            rt.alloc(),
            &mut syms,
            b"ACL2",
            b"KEYWORD",
            b"TEST",
            b":TEST"
        )?
    );
    assert!(rt;
        prints_symbol(
            rt.alloc(),
            &mut syms,
            b"ACL2",
            b"KEYWORD",
            b"test",
            b":|test|"
        )?
    );
    assert!(rt;
        prints_symbol(
            rt.alloc(),
            &mut syms,
            b"KEYWORD",
            b"KEYWORD",
            b"TEST",
            b":TEST"
        )?
    );
    Ok(())
}

#[test]
fn symbols_of_the_current_package_stand_alone(rt: HostRuntime) -> Result<(), Fail> {
    let mut syms = Symbols::new(rt.alloc())?;
    assert!(rt;
        prints_symbol(
            rt.alloc(),
            &mut syms,
            b"ACL2",
            b"COMMON-LISP",
            b"CAR",
            b"CAR"
        )?
    );
    assert!(rt;
        prints_symbol(
            rt.alloc(),
            &mut syms,
            b"COMMON-LISP",
            b"ACL2",
            b"CAR",
            b"CAR"
        )?
    );
    Ok(())
}

#[test]
fn other_symbols_say_their_package(rt: HostRuntime) -> Result<(), Fail> {
    let mut syms = Symbols::new(rt.alloc())?;
    syms.add_package(b"my pkg", &[])?;
    assert!(rt;
        prints_symbol(
            rt.alloc(),
            &mut syms,
            b"ACL2",
            b"COMMON-LISP",
            b"FOO",
            b"COMMON-LISP::FOO"
        )?
    );
    assert!(rt;
        prints_symbol(
            rt.alloc(),
            &mut syms,
            b"COMMON-LISP",
            b"ACL2",
            b"FOO",
            b"ACL2::FOO"
        )?
    );
    assert!(rt;
        prints_symbol(
            rt.alloc(),
            &mut syms,
            b"my pkg",
            b"COMMON-LISP",
            b"NIL",
            b"COMMON-LISP::NIL"
        )?
    );
    assert!(rt;
        prints_symbol(
            rt.alloc(),
            &mut syms,
            b"ACL2",
            b"my pkg",
            b"x",
            b"|my pkg|::|x|"
        )?
    );
    Ok(())
}

#[tactic(auto, using(acl_forms::proofs::WholeLemmas::pair_whole))]
fn pair(heap: &mut Heap, syms: &Symbols, a: Word, d: Word) -> Result<Word, HeapFault>
    requires car { IsWhole syms.now heap.old a }
    requires cdr { IsWhole syms.now heap.old d }
    ensures whole { IfOk result (IsWhole syms.now heap.new) }
    ensures grows { Grown syms.now syms.now heap.old heap.new }
{
    let _ = syms;
    let w = heap.cons(a, d)?;
    Ok(w)
}

#[tactic(auto, using(acl_forms::proofs::WholeLemmas::integer_whole))]
fn integer(heap: &mut Heap, syms: &Symbols, n: i128) -> Result<Word, HeapFault>
    ensures whole { IfOk result (IsWhole syms.now heap.new) }
    ensures grows { Grown syms.now syms.now heap.old heap.new }
{
    let _ = syms;
    let w = heap.int(n)?;
    Ok(w)
}

#[tactic(auto, using(acl_forms::proofs::WholeLemmas::text_whole))]
fn string(heap: &mut Heap, syms: &Symbols, bytes: &[u8]) -> Result<Word, HeapFault>
    ensures whole { IfOk result (IsWhole syms.now heap.new) }
    ensures grows { Grown syms.now syms.now heap.old heap.new }
{
    let _ = syms;
    let w = heap.string(bytes)?;
    Ok(w)
}

/// The list of both ends of 128 bits and a string, before this end.
fn list(heap: &mut Heap, syms: &Symbols, end: Word) -> Result<Word, HeapFault>
    requires { IsWhole syms.now heap.old end }
    ensures whole { IfOk result (IsWhole syms.now heap.new) }
{
    let text = string(heap, syms, b"a\"b\\c|")?;
    let most = integer(heap, syms, i128::MAX)?;
    let least = integer(heap, syms, i128::MIN)?;
    let inner = pair(heap, syms, text, end)?;
    let middle = pair(heap, syms, most, inner)?;
    pair(heap, syms, least, middle)
}

#[test]
fn lists_have_a_dot_only_where_they_must(rt: HostRuntime) -> Result<(), Fail> {
    let mut heap = Heap::new(rt.alloc());
    let syms = Symbols::new(rt.alloc())?;
    if let Some(acl2) = syms.find_package(b"ACL2") {
        if let Some(nil) = syms.find(acl2, b"NIL") {
            let proper = list(&mut heap, &syms, Word::Sym(nil))?;
            let text = text_of(rt.alloc(), proper, &heap, &syms, acl2)?;
            assert_eq!(rt;
                text.as_slice(),
                b"(-170141183460469231731687303715884105728 170141183460469231731687303715884105727 \"a\\\"b\\\\c|\")".as_slice()
            );
        }
        let dotted = list(&mut heap, &syms, Word::Small(-7))?;
        let text = text_of(rt.alloc(), dotted, &heap, &syms, acl2)?;
        assert_eq!(rt;
            text.as_slice(),
            b"(-170141183460469231731687303715884105728 170141183460469231731687303715884105727 \"a\\\"b\\\\c|\" . -7)".as_slice()
        );
    }
    Ok(())
}

#[test]
fn a_fault_of_the_sink_is_told(rt: HostRuntime) -> Result<(), Fail> {
    let mut heap = Heap::new(rt.alloc());
    let syms = Symbols::new(rt.alloc())?;
    if let Some(acl2) = syms.find_package(b"ACL2") {
        let list = pair(&mut heap, &syms, Word::Small(12), Word::Small(-7))?;
        let mut wide = MemSink::new(rt.alloc(), 100, Vec::new(rt.alloc()))?;
        assert_eq!(rt;
            print_to(rt.alloc(), list, &heap, &syms, acl2, &mut wide),
            Ok(())
        );
        assert_eq!(rt; wide.bytes(), b"(12 . -7)".as_slice());
        let mut narrow = MemSink::new(rt.alloc(), 4, Vec::new(rt.alloc()))?;
        assert_eq!(rt;
            print_to(rt.alloc(), list, &heap, &syms, acl2, &mut narrow),
            Err(PrintFault::Write)
        );
        assert_eq!(rt; narrow.bytes(), b"(12 ".as_slice());
        let mut broken = MemSink::new(rt.alloc(), 100, vec![in rt.alloc(); 1u64]?)?;
        assert_eq!(rt;
            print_to(rt.alloc(), list, &heap, &syms, acl2, &mut broken),
            Err(PrintFault::Write)
        );
        assert_eq!(rt; broken.bytes(), b"".as_slice());
    }
    Ok(())
}
