//! Types that are met and that are not.

ghost use Rattle.acl_heap.specs.Objects.{Lies};

use crate::meets;
use acl_base::{SymId, Word};
use acl_heap::Heap;
use acl_types::is_type;
use std::alloc::AllocError;
use std::test::*;

const NIL: Word = Word::Sym(SymId(1));

const MEMBER: Word = Word::Sym(SymId(52));

const AND: Word = Word::Sym(SymId(54));

const NOT: Word = Word::Sym(SymId(13));

const INTEGER: Word = Word::Sym(SymId(106));

const UNSIGNED_BYTE: Word = Word::Sym(SymId(108));

fn is_met(heap: &Heap, written: Word, x: Word) -> Result<bool, AllocError>
    requires written { Lies heap.now written }
    requires object { Lies heap.now x }
{
    if is_type(heap, written) {
        let holds = meets(heap, written, x)?;
        Ok(holds)
    } else {
        Ok(false)
    }
}

#[test]
fn a_byte_has_two_ends(rt: HostRuntime) -> Result<(), Fail> {
    let mut heap = Heap::new(rt.alloc());
    let rest = heap.cons(Word::Small(8), NIL)?;
    let byte = heap.cons(UNSIGNED_BYTE, rest)?;
    assert!(rt; is_met(&heap, byte, Word::Small(0))?);
    assert!(rt; is_met(&heap, byte, Word::Small(255))?);
    assert!(rt; !is_met(&heap, byte, Word::Small(256))?);
    assert!(rt; !is_met(&heap, byte, Word::Small(-1))?);
    assert!(rt; !is_met(&heap, byte, NIL)?);
    Ok(())
}

#[test]
fn members_that_are_not_numbers(rt: HostRuntime) -> Result<(), Fail> {
    let mut heap = Heap::new(rt.alloc());
    let last = heap.cons(NOT, NIL)?;
    let both = heap.cons(Word::Small(7), last)?;
    let members = heap.cons(MEMBER, both)?;
    assert!(rt; is_met(&heap, members, Word::Small(7))?);
    assert!(rt; is_met(&heap, members, NOT)?);
    assert!(rt; !is_met(&heap, members, AND)?);
    let rest = heap.cons(INTEGER, NIL)?;
    let other = heap.cons(NOT, rest)?;
    let rest = heap.cons(other, NIL)?;
    let rest = heap.cons(members, rest)?;
    let joined = heap.cons(AND, rest)?;
    assert!(rt; !is_met(&heap, joined, Word::Small(7))?);
    assert!(rt; is_met(&heap, joined, NOT)?);
    Ok(())
}
