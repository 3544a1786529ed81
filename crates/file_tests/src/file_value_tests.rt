//! Values of worked files.

use file_check::open_frozen;
use file_value::value_of;
use std::test::Fail;
use typed_tree::{TreeKind, TreeRef};

// A struct of two i32 fields with the values 5 and -1, in version 1.
const TWO_FIELDS: &[u8] = b"FZ2P\x40\0\0\0\x12\x1B\x03\x4C\
    \x00\x15\x00\x14\x0A\x1B\x02\x4C\x02\x14\x02\x14\x00\x00\x04\x14\x04\x14\x07\x00\x18\x06struct\x00\
    \x02\x15\x00\x14\x08\x1B\x00\x18\x03i32\x00\
    \x04\x15\x00\x14\x02\x1B\x00\x18\x03i32\x00\
    \x14\x00\x15\x02\x00\x15";

// The same in version 2, where each number is its own base, so that the content is empty.
const FROM_BASES: &[u8] = b"FZ2P\x46\0\0\0\x11\x1B\x03\x4C\
    \x00\x15\x00\x14\x00\x1B\x02\x4C\x02\x14\x02\x14\x00\x00\x04\x14\x04\x14\x00\x00\
    \x18\x06struct\x16\x00\x00\
    \x02\x15\x00\x14\x00\x1B\x00\x18\x03i32\x16\x0A\x00\
    \x04\x15\x00\x14\x00\x1B\x00\x18\x03i32\x16\x01\x00\
    \x14\x00\x15\x04\x00";

// A struct of an optional text that is "hi", one that is absent, a map from -7 to "a" and from 5 to the empty
// text, and a list of 3, -4 and 300.
const NOTES: &[u8] =
    b"FZ2P\x13\x02\0\0\x11\x1B\x17L\0\x15\0\x14\x1E\x1B\x04L\x02\x14\x02\x14\0\0\x04\x14\x0C\x14\x09\0\
    \x06\x14\x16\x14\x09\0\x08\x14&\x14\x13\0\x18\x06struct\x16\0\0\x02\x15\0\x14\x0A\x1B\x02L\x02\x14\
    \x04\x14\0\0\x04\x14\x06\x14\x01\0\x18\x08optional\x16\0\0\x04\x15\0\x14\x02\x1B\0\x18\x04bool\x16\
    \0\0\x06\x15\0\x14\x08\x1B\x02L\x02\x14\x08\x14\0\0\x04\x14\x0A\x14\x03\0\x18\x06string\x16\0\0\
    \x08\x15\0\x14\x04\x1B\0\x18\x04size\x16\0\0\x0A\x15\0\x14\x04\x1B\0\x18\x04size\x16\0\0\x0C\x15\0\
    \x14\0\x1B\x02L\x02\x14\x0E\x14\0\0\x04\x14\x10\x14\0\0\x18\x08optional\x16\0\0\x0E\x15\0\x14\0\
    \x1B\0\x18\x04bool\x16\0\0\x10\x15\0\x14\0\x1B\x02L\x02\x14\x12\x14\0\0\x04\x14\x14\x14\0\0\x18\
    \x06string\x16\0\0\x12\x15\0\x14\0\x1B\0\x18\x04size\x16\0\0\x14\x15\0\x14\0\x1B\0\x18\x04size\x16\
    \0\0\x16\x15\0\x14\x0A\x1B\x03L\x02\x14\x18\x14\0\0\x04\x14\x1A\x14\x05\0\x06\x14\x1C\x14\0\0\x18\
    \x03map\x16\0\0\x18\x15\0\x14\x06\x1B\0\x18\x04size\x16\0\0\x1A\x15\0\x14\x04\x1B\0\x18\x04size\
    \x16\0\0\x1C\x15\0\x14\x0E\x1B\x02L\x02\x14\x1E\x14\0\0\x04\x14 \x14\x07\0\x18\x04pair\x16\0\0\x1E\
    \x15\0\x14\x08\x1B\0\x18\x03i32\x16\x0D\0 \x15\0\x14\x06\x1B\x02L\x02\x14\"\x14\0\0\x04\x14$\x14\
    \x03\0\x18\x06string\x16\0\0\"\x15\0\x14\x04\x1B\0\x18\x04size\x16\0\0$\x15\0\x14\x02\x1B\0\x18\
    \x04size\x16\0\0&\x15\0\x14\x0A\x1B\x03L\x02\x14(\x14\0\0\x04\x14*\x14\x05\0\x06\x14,\x14\0\0\x18\
    \x04list\x16\0\0(\x15\0\x14\x06\x1B\0\x18\x04size\x16\0\0*\x15\0\x14\x04\x1B\0\x18\x04size\x16\0\0\
    ,\x15\0\x14\x12\x1B\0\x18\x03i16\x16\x07\0\x14\0\x15\x04\0\x95~hi`\x06a\x07\0\xC0\x04";

// A field of a struct.
fn field<'a>(from: TreeRef<'a>, id: i16) -> Option<TreeRef<'a>> {
    match from.kind() {
        TreeKind::Struct => from.field(id),
        _ => None,
    }
}

fn number(from: TreeRef<'_>) -> Option<i64> {
    match from.kind() {
        TreeKind::Int => Some(from.int()),
        _ => None,
    }
}

fn text<'a>(from: TreeRef<'a>) -> Option<&'a str> {
    match from.kind() {
        TreeKind::Text => Some(from.text()),
        _ => None,
    }
}

// What a field of a struct has, where it is an optional that is there.
fn present<'a>(from: TreeRef<'a>, id: i16) -> Option<TreeRef<'a>> {
    let there = field(from, id)?;
    match there.kind() {
        TreeKind::Present => Some(there.inner()),
        _ => None,
    }
}

// An item of a list that is a field of a struct.
fn item<'a>(from: TreeRef<'a>, id: i16, i: u64) -> Option<TreeRef<'a>> {
    let list = field(from, id)?;
    match list.kind() {
        TreeKind::List => {
            if i < list.len() {
                Some(list.item(i))
            } else {
                None
            }
        }
        _ => None,
    }
}

// A key and its value of a map that is a field of a struct.
fn entry<'a>(from: TreeRef<'a>, id: i16, i: u64) -> Option<(TreeRef<'a>, TreeRef<'a>)> {
    let map = field(from, id)?;
    match map.kind() {
        TreeKind::Map => {
            if i < map.len() {
                Some(map.entry(i))
            } else {
                None
            }
        }
        _ => None,
    }
}

fn number_at(from: TreeRef<'_>, id: i16) -> Option<i64> {
    number(field(from, id)?)
}

fn item_number(from: TreeRef<'_>, id: i16, i: u64) -> Option<i64> {
    number(item(from, id, i)?)
}

fn key_number(from: TreeRef<'_>, id: i16, i: u64) -> Option<i64> {
    number(entry(from, id, i)?.0)
}

fn value_text<'a>(from: TreeRef<'a>, id: i16, i: u64) -> Option<&'a str> {
    text(entry(from, id, i)?.1)
}

#[test]
fn two_numbers_in_either_version(rt: HostRuntime) -> Result<(), Fail> {
    let opened = open_frozen(rt.alloc(), TWO_FIELDS)?;
    let tree = value_of(rt.alloc(), &opened)?;
    assert_eq!(rt; number_at(tree.top(), 1), Some(5));
    assert_eq!(rt; number_at(tree.top(), 2), Some(-1));
    let opened = open_frozen(rt.alloc(), FROM_BASES)?;
    let tree = value_of(rt.alloc(), &opened)?;
    assert_eq!(rt; number_at(tree.top(), 1), Some(5));
    assert_eq!(rt; number_at(tree.top(), 2), Some(-1));
    Ok(())
}

#[test]
fn an_optional_a_map_and_a_list(rt: HostRuntime) -> Result<(), Fail> {
    let opened = open_frozen(rt.alloc(), NOTES)?;
    let tree = value_of(rt.alloc(), &opened)?;
    let top = tree.top();
    assert_eq!(rt; present(top, 1).and_then(text), Some("hi"));
    assert_eq!(rt; field(top, 2).map(TreeRef::kind), Some(TreeKind::Absent));
    assert_eq!(rt; key_number(top, 3, 0), Some(-7));
    assert_eq!(rt; value_text(top, 3, 0), Some("a"));
    assert_eq!(rt; key_number(top, 3, 1), Some(5));
    assert_eq!(rt; value_text(top, 3, 1), Some(""));
    assert!(rt; entry(top, 3, 2).is_none());
    assert_eq!(rt; item_number(top, 4, 0), Some(3));
    assert_eq!(rt; item_number(top, 4, 1), Some(-4));
    assert_eq!(rt; item_number(top, 4, 2), Some(300));
    assert!(rt; item(top, 4, 3).is_none());
    Ok(())
}
