use super::*;
use std::test::*;
use std::vec::Vec;

#[test]
fn objects_are_seen_as_they_were_made(rt: HostRuntime) -> Result<(), Fail> {
    let mut heap = Heap::new(rt.alloc());
    let bottom = heap.mark();
    let small = heap.int(7)?;
    let wide = heap.int(1_i128 << 64)?;
    let text = heap.string(b"nine more")?;
    let rest = heap.cons(wide, text)?;
    let list = heap.cons(small, rest)?;
    assert_eq!(rt; heap.int_of(small), 7);
    assert_eq!(rt; heap.int_of(wide), 18_446_744_073_709_551_616);
    assert!(rt; heap.bytes_of(text) == b"nine more".as_slice());
    assert_eq!(rt; heap.weight(list), 14);
    assert_eq!(rt; heap.cells(list), 6);
    assert_eq!(rt; heap.car(list), small);
    assert_eq!(rt; heap.car(heap.cdr(list)), wide);
    assert!(rt; matches!(heap.look(text), Seen::Text(_)));
    assert!(rt; matches!(heap.look(list), Seen::Pair(_, _)));
    heap.is_heap();
    heap.reset(bottom);
    assert!(rt; matches!(heap.look(small), Seen::Integer(7)));
    Ok(())
}

#[test]
fn equal_goes_through_the_parts(rt: HostRuntime) -> Result<(), Fail> {
    let mut heap = Heap::new(rt.alloc());
    let nil = Word::Sym(SymId(1));
    let first = heap.string(b"A")?;
    let second = heap.string(b"A")?;
    let other = heap.string(b"B")?;
    let one = heap.cons(first, nil)?;
    let two = heap.cons(second, nil)?;
    let three = heap.cons(other, nil)?;
    assert!(rt; heap.equal(one, one)?);
    assert!(rt; heap.equal(one, two)?);
    assert!(rt; !heap.equal(one, three)?);
    assert!(rt; !heap.equal(one, first)?);
    assert!(rt; !heap.equal(nil, Word::Sym(SymId(2)))?);
    assert!(rt; heap.equal(Word::Small(5), Word::Small(5))?);
    Ok(())
}

#[test]
fn weight_has_a_limit(rt: HostRuntime) -> Result<(), Fail> {
    let mut heap = Heap::new(rt.alloc());
    let mut bytes = Vec::new(rt.alloc());
    bytes.resize(1_048_576, 65)?;
    assert!(rt;
        matches!(
            heap.string(&bytes),
            Err(HeapFault::TooLarge { weight: 1_048_577 })
        )
    );
    bytes.truncate(1_048_575);
    let most = heap.string(&bytes)?;
    assert_eq!(rt; heap.weight(most), 1_048_576);
    bytes.truncate(1_048_573);
    let less = heap.string(&bytes)?;
    let pair = heap.cons(less, Word::Small(0))?;
    assert_eq!(rt; heap.weight(pair), 1_048_576);
    assert!(rt;
        matches!(
            heap.cons(pair, pair),
            Err(HeapFault::TooLarge { weight: 2_097_153 })
        )
    );
    Ok(())
}

// The list of 500,000 zeros is as heavy as a list of this kind may nearly be, so there are two.
#[test]
fn a_million_conses(rt: HostRuntime) -> Result<(), Fail> {
    let mut heap = Heap::new(rt.alloc());
    for _ in 0..2 {
        let mut list = Word::Sym(SymId(1));
        for _ in 0..500_000 {
            list = heap.cons(Word::Small(0), list)?;
        }
        assert_eq!(rt; heap.weight(list), 1_000_001);
    }
    Ok(())
}
