use super::*;
use std::test::*;

#[test]
fn names_are_found(rt: HostRuntime) -> Result<(), Fail> {
    let mut symbols = Symbols::new(rt.alloc())?;
    symbols.is_table();
    assert!(rt; symbols.find_package(b"ACL2") == Some(PkgId(2)));
    assert!(rt; symbols.find_package(b"acl2") == None);
    if let Some(acl2) = symbols.find_package(b"ACL2") {
        assert!(rt; symbols.package_name(acl2) == b"ACL2".as_slice());
        assert_eq!(rt; symbols.imports(acl2).len(), 119);
        assert!(rt; symbols.find(acl2, b"NIL") == Some(SymId(1)));
        assert!(rt; symbols.find(acl2, b"KEY") == None);
        let key = symbols.intern(b"ACL2", b"KEY")?;
        assert!(rt; symbols.name(key) == b"KEY".as_slice());
        assert!(rt; symbols.package(key) == acl2);
        let again = symbols.intern(b"ACL2", b"KEY")?;
        assert!(rt; again == key);
    }
    let nil = symbols.intern(b"ACL2", b"NIL")?;
    assert!(rt; nil == SymId(1));
    assert!(rt; symbols.package(nil) == PkgId(0));
    Ok(())
}

#[test]
fn packages_are_refused(rt: HostRuntime) -> Result<(), Fail> {
    let mut symbols = Symbols::new(rt.alloc())?;
    assert!(rt; matches!(symbols.intern(b"B", b"X"), Err(SymFault::UnknownPackage)));
    assert!(rt; matches!(symbols.add_package(b"%", &[]), Err(SymFault::PackageExists)));
    let one = symbols.intern(b"ACL2", b"X")?;
    let two = symbols.intern(b"KEYWORD", b"X")?;
    let other = symbols.intern(b"KEYWORD", b"Y")?;
    match symbols.add_package(b"B", &[one, other, one, two, two]) {
        Err(SymFault::ImportClash { first, second }) => {
            assert!(rt; first == one);
            assert!(rt; second == two);
        }
        _ => assert!(rt; false),
    }
    assert!(rt; symbols.find_package(b"B") == None);
    let added = symbols.add_package(b"B", &[one, other, one])?;
    assert!(rt; added == PkgId(4));
    let imported = symbols.intern(b"B", b"X")?;
    assert!(rt; imported == one);
    let own = symbols.intern(b"B", b"Z")?;
    assert!(rt; symbols.package(own) == added);
    Ok(())
}

#[test]
fn many_symbols(rt: HostRuntime) -> Result<(), Fail> {
    let mut symbols = Symbols::new(rt.alloc())?;
    for number in 0..100_000_u32 {
        let name = number.to_string(rt.alloc())?;
        let s = symbols.intern(b"KEYWORD", name.as_bytes())?;
        assert_eq!(rt; s.0, number + 196);
    }
    let middle = symbols.intern(b"KEYWORD", b"50000")?;
    assert_eq!(rt; middle.0, 50_196);
    Ok(())
}
