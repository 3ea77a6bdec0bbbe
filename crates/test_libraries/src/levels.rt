//! Levels and lists, each call once.

use std::test::Fail;
use wl_level::{Level, Listed, place_laws};

#[test]
fn two_levels(rt: HostRuntime) {
    assert_eq!(rt; Level::default(), Level::Recessive);
    assert_eq!(rt; Level::Recessive.opposite(), Level::Dominant);
    assert!(rt; Level::Dominant.is(Level::Dominant));
    assert!(rt; !Level::Recessive.is(Level::Dominant));
    place_laws();
}

#[test]
fn grows(rt: HostRuntime) -> Result<(), Fail> {
    let mut list: Listed<u32> = Listed::new(rt.alloc());
    assert!(rt; list.is_empty());
    list.push(7)?;
    list.push(9)?;
    assert_eq!(rt; list.len(), 2);
    assert!(rt; !list.is_empty());
    assert_eq!(rt; list.as_slice(), [7, 9].as_slice());
    Ok(())
}

#[test]
fn equal_lists(rt: HostRuntime) -> Result<(), Fail> {
    let list = Listed::from_vec(vec![in rt.alloc(); 7u32, 9]?);
    let copy = list.clone_in(rt.alloc())?;
    assert_eq!(rt; copy.as_slice(), [7, 9].as_slice());
    assert!(rt; list == copy);
    assert!(rt; list != Listed::from_vec(vec![in rt.alloc(); 7u32]?));
    assert!(rt; list != Listed::from_vec(vec![in rt.alloc(); 7u32, 8]?));
    Ok(())
}
