use super::*;
use std::test::*;

#[test]
fn lists_are_kept(rt: HostRuntime) -> Result<(), Fail> {
    let mut heap = Heap::new(rt.alloc());
    assert!(rt; is_palindrome(&mut heap, 1, 2, 1)?);
    assert!(rt; !is_palindrome(&mut heap, 1, 2, 3)?);
    let list = three_kept(&mut heap, 4, 5, 6)?;
    assert_eq!(rt; heap.weight(list), 7);
    Ok(())
}

#[test]
fn symbols_are_found_again(rt: HostRuntime) -> Result<(), Fail> {
    let mut symbols = Symbols::new(rt.alloc())?;
    let mut heap = Heap::new(rt.alloc());
    let others: [&[u8]; 50] = [
        b"N0", b"N1", b"N2", b"N3", b"N4", b"N5", b"N6", b"N7", b"N8", b"N9", b"N10", b"N11",
        b"N12", b"N13", b"N14", b"N15", b"N16", b"N17", b"N18", b"N19", b"N20", b"N21", b"N22",
        b"N23", b"N24", b"N25", b"N26", b"N27", b"N28", b"N29", b"N30", b"N31", b"N32", b"N33",
        b"N34", b"N35", b"N36", b"N37", b"N38", b"N39", b"N40", b"N41", b"N42", b"N43", b"N44",
        b"N45", b"N46", b"N47", b"N48", b"N49",
    ];
    if let Some(p) = symbols.find_package(b"ACL2") {
        let (before, after) = looked_up_twice(&mut symbols, p, b"CAR", &others)?;
        assert!(rt; before == after);
        let pair = entry(&mut heap, &mut symbols, p, b"CAR", b"CDR")?;
        assert_eq!(rt; heap.weight(pair), 6);
    }
    Ok(())
}
