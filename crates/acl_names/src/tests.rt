use super::*;
use std::test::*;

#[test]
fn the_last_place_counts_until_it_is_cut(rt: HostRuntime) -> Result<(), Fail> {
    let mut names = Names::new(rt.alloc());
    names.push(5)?;
    names.push(6)?;
    names.push(5)?;
    assert!(rt; names.find(5) == Some(2));
    assert!(rt; names.find(6) == Some(1));
    assert!(rt; names.find(7) == None);
    names.cut(2);
    assert!(rt; names.find(5) == Some(0));
    names.cut(0);
    assert!(rt; names.find(5) == None);
    Ok(())
}
