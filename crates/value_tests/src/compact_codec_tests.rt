//! What no clause says: that a value is read and written where there is memory.

use compact_codec::{decode, encode};
use std::test::Fail;
use thrift_idl::parse;

// The items of the set stand out of order, and field 5 does not stand. They are written by rising key, and
// with its default.
#[test]
fn a_value(rt: HostRuntime) -> Result<(), Fail> {
    let def = parse(
        rt.alloc(),
        b"struct S {1: list<i32> l, 2: set<i32> s, 3: map<string, i64> m, 4: optional i16 o, 5: i32 d = 7}",
    )?;
    let ty = def.root();
    let tree = decode(
        rt.alloc(),
        ty,
        b"\x19\x25\x06\x01\x1a\x25\x0a\x04\x1b\x01\x86\x01k\x12\x14\xd8\x04\x00",
    )?;
    let bytes = encode(rt.alloc(), ty, tree.top())?;
    assert_eq!(rt;
        bytes.as_slice(),
        b"\x19\x25\x06\x01\x1a\x25\x04\x0a\x1b\x01\x86\x01k\x12\x14\xd8\x04\x15\x0e\x00".as_slice()
    );
    Ok(())
}
