//! Names pushed and looked up.
use name_index::NameIndex;
use std::test::Fail;

#[test]
fn names_are_found(rt: HostRuntime) -> Result<(), Fail> {
    let alloc = rt.alloc();
    let mut index = NameIndex::new(alloc);
    assert!(rt; !index.contains("one"));
    for name in ["one", "two", "one", ""] {
        index.push(alloc, name)?;
    }
    assert_eq!(rt; index.place_of("one"), Some(0));
    assert_eq!(rt; index.place_of("two"), Some(1));
    assert_eq!(rt; index.place_of(""), Some(3));
    assert_eq!(rt; index.place_of("on"), None);
    assert!(rt; index.contains("two"));
    Ok(())
}
