//! Each call once, on small trees.

use std::cmp::Ordering;
use std::test::Fail;
use thrift_idl::{Need, TypeKind, parse};
use typed_tree::{Builder, TableFault, TreeKind, cells, compare_keys, default_field, default_of};

#[test]
fn a_flag(rt: HostRuntime) -> Result<(), Fail> {
    let mut builder = Builder::new(rt.alloc());
    builder.flag(true)?;
    let tree = builder.finish();
    assert!(rt; tree.top().flag());
    assert_eq!(rt; tree.top().kind(), TreeKind::Flag);
    Ok(())
}

#[test]
fn a_number(rt: HostRuntime) -> Result<(), Fail> {
    let mut builder = Builder::new(rt.alloc());
    builder.int(-5)?;
    let tree = builder.finish();
    assert_eq!(rt; tree.top().int(), -5);
    assert_eq!(rt; tree.top().kind(), TreeKind::Int);
    Ok(())
}

#[test]
fn a_text(rt: HostRuntime) -> Result<(), Fail> {
    let mut builder = Builder::new(rt.alloc());
    builder.text("né")?;
    let tree = builder.finish();
    assert_eq!(rt; tree.top().bytes(), "né".as_bytes());
    assert_eq!(rt; tree.top().kind(), TreeKind::Text);
    assert_eq!(rt; tree.top().text(), "né");
    Ok(())
}

#[test]
fn bytes_that_are_a_text(rt: HostRuntime) -> Result<(), Fail> {
    let mut builder = Builder::new(rt.alloc());
    builder.bytes("né".as_bytes())?;
    let tree = builder.finish();
    assert_eq!(rt; tree.top().bytes(), "né".as_bytes());
    assert_eq!(rt; tree.top().kind(), TreeKind::Bytes);
    Ok(())
}

#[test]
fn optionals(rt: HostRuntime) -> Result<(), Fail> {
    let mut builder = Builder::new(rt.alloc());
    builder.absent()?;
    let tree = builder.finish();
    assert_eq!(rt; tree.top().kind(), TreeKind::Absent);
    let mut builder = Builder::new(rt.alloc());
    builder.int(7)?;
    builder.present()?;
    let tree = builder.finish();
    assert_eq!(rt; tree.top().kind(), TreeKind::Present);
    assert_eq!(rt; tree.top().inner().int(), 7);
    Ok(())
}

#[test]
fn a_list(rt: HostRuntime) -> Result<(), Fail> {
    let mut builder = Builder::new(rt.alloc());
    builder.int(1)?;
    builder.int(2)?;
    builder.list(2)?;
    let tree = builder.finish();
    let list = tree.top();
    assert_eq!(rt; list.kind(), TreeKind::List);
    assert_eq!(rt; list.len(), 2);
    assert!(rt; !list.is_empty());
    assert_eq!(rt; list.item(0).int(), 1);
    assert_eq!(rt; list.item(1).int(), 2);
    Ok(())
}

#[test]
fn a_set(rt: HostRuntime) -> Result<(), Fail> {
    let mut builder = Builder::new(rt.alloc());
    builder.int(2)?;
    builder.int(-1)?;
    assert_eq!(rt; builder.set(2), Ok(()));
    let tree = builder.finish();
    let set = tree.top();
    assert_eq!(rt; set.kind(), TreeKind::Set);
    assert_eq!(rt; set.len(), 2);
    assert_eq!(rt; set.item(0).int(), -1);
    assert_eq!(rt; set.item(1).int(), 2);
    assert!(rt; compare_keys(set.item(0), set.item(1)) == Ordering::Less);
    Ok(())
}

#[test]
fn a_map(rt: HostRuntime) -> Result<(), Fail> {
    let mut builder = Builder::new(rt.alloc());
    builder.int(2)?;
    builder.flag(false)?;
    builder.int(1)?;
    builder.flag(true)?;
    assert_eq!(rt; builder.map(2), Ok(()));
    let tree = builder.finish();
    let map = tree.top();
    assert_eq!(rt; map.kind(), TreeKind::Map);
    assert_eq!(rt; map.len(), 2);
    let (key, value) = map.entry(0);
    assert_eq!(rt; key.int(), 1);
    assert!(rt; value.flag());
    Ok(())
}

#[test]
fn a_key_that_repeats(rt: HostRuntime) -> Result<(), Fail> {
    let mut builder = Builder::new(rt.alloc());
    builder.text("b")?;
    builder.bytes(b"b")?;
    let repeat = TableFault::RepeatedKey {
        first: 0,
        second: 1,
    };
    assert_eq!(rt; builder.set(2), Err(repeat));
    builder.list(2)?;
    assert_eq!(rt; builder.finish().top().len(), 2);
    Ok(())
}

#[test]
fn fields_in_any_order(rt: HostRuntime) -> Result<(), Fail> {
    let mut builder = Builder::new(rt.alloc());
    builder.flag(true)?;
    builder.int(3)?;
    builder.structure(&[2, 1])?;
    let tree = builder.finish();
    let record = tree.top();
    assert_eq!(rt; record.kind(), TreeKind::Struct);
    assert_eq!(rt; record.field_at(0).int(), 3);
    assert!(rt; record.field(1).is_some());
    assert!(rt; record.field(2).is_some());
    assert!(rt; record.field(3).is_none());
    assert!(rt; record.field(-1).is_none());
    Ok(())
}

#[test]
fn a_user(rt: HostRuntime) -> Result<(), Fail> {
    let mut builder = Builder::sized(rt.alloc(), 3, 3)?;
    builder.text("Ada")?;
    builder.int(36)?;
    builder.structure(&[1, 2])?;
    let tree = builder.finish();
    let user = tree.top();
    assert_eq!(rt; user.field_at(0).bytes(), b"Ada".as_slice());
    assert_eq!(rt; user.field_at(1).int(), 36);
    Ok(())
}

#[test]
fn what_nobody_gave(rt: HostRuntime) -> Result<(), Fail> {
    let text = b"struct S {1: required i64 n = 7 2: optional string s = \"no\"}";
    let def = parse(rt.alloc(), text)?;
    let root = def.root();
    let tree = default_of(rt.alloc(), root)?;
    assert_eq!(rt; tree.top().kind(), TreeKind::Struct);
    for i in 0..root.field_count() {
        let tree = default_field(rt.alloc(), root.field_at(i))?;
        match tree.top().kind() {
            TreeKind::Int => assert_eq!(rt; tree.top().int(), 7),
            kind => assert_eq!(rt; kind, TreeKind::Absent),
        }
    }
    Ok(())
}

#[test]
fn an_absent_optional(rt: HostRuntime) -> Result<(), Fail> {
    let def = parse(rt.alloc(), b"struct S {1: optional i64 n}")?;
    let ty = def.root();
    assert_eq!(rt; ty.kind(), TypeKind::Struct);
    assert_eq!(rt; ty.field_count(), 1);
    let field = ty.field_at(0);
    assert_eq!(rt; field.id(), 1);
    assert_eq!(rt; field.need(), Need::Optional);
    let mut builder = Builder::new(rt.alloc());
    builder.absent()?;
    builder.structure(&[1])?;
    let tree = builder.finish();
    assert_eq!(rt; cells(ty, tree.top()), 2);
    Ok(())
}
