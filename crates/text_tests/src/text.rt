use std::alloc::Global;
use std::test::Fail;
use up_text::{Box, List, Name, NameError, NameSet, Shared, SharedList, fresh};

fn name(alloc: Global, text: &str) -> Result<Name, NameError> {
    Name::read(alloc, text.as_bytes())
}

#[test]
fn names_are_read(rt: HostRuntime) -> Result<(), Fail> {
    let alloc = rt.alloc();
    let read = name(alloc, "Move-1")?;
    assert_eq!(rt; read.bytes(), b"move-1".as_slice());
    assert!(rt; matches!(name(alloc, "9a"), Err(NameError::NotAName)));
    assert!(rt; matches!(name(alloc, "WHEN"), Err(NameError::Reserved)));
    let long = name(alloc, "the-name-of-an-action-with-more-than-24-bytes")?;
    assert!(rt; long.copy(alloc)? == long);
    assert!(rt; Name::of_bytes(alloc, b"either")?.is_none());
    Ok(())
}

#[test]
fn names_are_made_fresh(rt: HostRuntime) -> Result<(), Fail> {
    let alloc = rt.alloc();
    let mut used = NameSet::new(alloc);
    let word = fresh(alloc, b"scale-up", &used)?;
    assert_eq!(rt; word.bytes(), b"scale-up-1".as_slice());
    assert!(rt; used.add(name(alloc, "move")?)?);
    assert!(rt; used.add(name(alloc, "move-1")?)?);
    assert!(rt; !used.add(name(alloc, "move")?)?);
    assert!(rt; used.has(&name(alloc, "move-1")?));
    let next = fresh(alloc, b"move", &used)?;
    assert_eq!(rt; next.bytes(), b"move-2".as_slice());
    Ok(())
}

#[test]
fn lists_and_boxes_hold_their_items(rt: HostRuntime) -> Result<(), Fail> {
    let mut list = List::new(rt.alloc());
    list.push(3u8)?;
    list.push(5)?;
    assert_eq!(rt; list.len(), 2);
    assert_eq!(rt; list.get(1), Some(&5));
    assert!(rt; List::from_slice(rt.alloc(), list.as_slice())? == list);
    assert_eq!(rt; list.pop(), Some(5));
    assert!(rt; list.get(1).is_none());
    assert_eq!(rt; Box::new(rt.alloc(), 7u8)?.into_inner(), 7);
    Ok(())
}

#[test]
fn shared_values_have_several_owners(rt: HostRuntime) -> Result<(), Fail> {
    let alloc = rt.alloc();
    let one = Shared::new(alloc, 7u8)?;
    let two = one.share()?;
    assert!(rt; two == one);
    drop(one);
    assert_eq!(rt; *two.get(), 7);
    let mut items = List::new(alloc);
    items.push(3u8)?;
    items.push(5)?;
    let list = SharedList::new(alloc, items)?;
    let other = list.share()?;
    assert!(rt; other == list);
    drop(list);
    assert_eq!(rt; other.len(), 2);
    assert_eq!(rt; other.as_slice(), [3, 5].as_slice());
    assert_eq!(rt; other.get(1), Some(&5));
    Ok(())
}
