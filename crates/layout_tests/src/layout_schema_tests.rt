//! The schema of a small layout, written and read.

use compact_wire::WireFault;
use layout_schema::{SchemaFault, read_schema, write_schema};
use layout_tree::{Kind, Layouts, NodeSpec};
use std::test::Fail;

// Version 1: a struct of two i32 fields of 4 and 1 bits.
const FIRST: &[u8] = b"\x12\x1B\x03\x4C\
    \x00\x15\x00\x14\x0A\x1B\x02\x4C\x02\x14\x02\x14\x00\x00\x04\x14\x04\x14\x07\x00\x18\x06struct\x00\
    \x02\x15\x00\x14\x08\x1B\x00\x18\x03i32\x00\
    \x04\x15\x00\x14\x02\x1B\x00\x18\x03i32\x00\
    \x14\x00\x15\x02\x00";

// Version 2, relaxed: the same struct with no bits above the bases 5 and -1.
const SECOND: &[u8] = b"\x11\x1B\x03\x4C\
    \x00\x15\x00\x14\x00\x1B\x02\x4C\x02\x14\x02\x14\x00\x00\x04\x14\x04\x14\x00\x00\
    \x18\x06struct\x16\x00\x00\
    \x02\x15\x00\x14\x00\x1B\x00\x18\x03i32\x16\x0A\x00\
    \x04\x15\x00\x14\x00\x1B\x00\x18\x03i32\x16\x01\x00\
    \x14\x00\x15\x04\x00";

#[test]
fn schema_of_two_fields(rt: HostRuntime) -> Result<(), Fail> {
    let root = NodeSpec {
        kind: Kind::Struct,
        field: 0,
        parent: 0,
        bits: 5,
        wide: 5,
        offset: 0,
        base: 0,
    };
    let x = NodeSpec {
        kind: Kind::I32,
        field: 1,
        parent: 0,
        bits: 4,
        wide: 4,
        offset: 0,
        base: 0,
    };
    let y = NodeSpec {
        kind: Kind::I32,
        field: 2,
        parent: 0,
        bits: 1,
        wide: 1,
        offset: 4,
        base: 0,
    };
    let layouts = Layouts::from_nodes([root, x, y].to_vec(rt.alloc())?, 1, false);
    let schema = write_schema(rt.alloc(), &layouts)?;
    assert_eq!(rt; schema.as_slice(), FIRST);
    Ok(())
}

#[test]
fn schema_of_version_1_is_read(rt: HostRuntime) -> Result<(), Fail> {
    let layouts = read_schema(rt.alloc(), FIRST)?;
    assert_eq!(rt;
        (layouts.version(), layouts.relaxed(), layouts.count()),
        (1, false, 3)
    );
    let again = write_schema(rt.alloc(), &layouts)?;
    assert_eq!(rt; again.as_slice(), FIRST);
    Ok(())
}

#[test]
fn schema_of_version_2_is_read(rt: HostRuntime) -> Result<(), Fail> {
    let layouts = read_schema(rt.alloc(), SECOND)?;
    assert_eq!(rt;
        (layouts.version(), layouts.relaxed(), layouts.count()),
        (2, true, 3)
    );
    let again = write_schema(rt.alloc(), &layouts)?;
    assert_eq!(rt; again.as_slice(), SECOND);
    Ok(())
}

// What is cut off; a number where relaxTypeChecks is; fileVersion 3; no layouts.
#[test]
fn what_is_no_schema_is_refused(rt: HostRuntime) {
    let alloc = rt.alloc();
    assert!(rt;
        matches!(
            read_schema(alloc, b"\x12"),
            Err(SchemaFault::Spelling(WireFault::Truncated))
        )
    );
    assert!(rt;
        matches!(
            read_schema(alloc, b"\x15\x00\x00"),
            Err(SchemaFault::Fields(1))
        )
    );
    assert!(rt;
        matches!(
            read_schema(alloc, b"\x45\x06\x00"),
            Err(SchemaFault::Version(3))
        )
    );
    assert!(rt;
        matches!(
            read_schema(alloc, b"\x45\x02\x00"),
            Err(SchemaFault::Shape(0))
        )
    );
}
