//! A small packing.

use block_region::Region;
use freezer::freeze_into;
use layout_tree::{Kind, Layouts, NodeSpec};
use std::test::Fail;
use typed_tree::Builder;

#[test]
fn two_fields_are_packed(rt: HostRuntime) -> Result<(), Fail> {
    let root = NodeSpec {
        kind: Kind::Struct,
        field: 0,
        parent: 0,
        bits: 5,
        wide: 5,
        offset: 0,
        base: 0,
    };
    let x = NodeSpec {
        kind: Kind::I32,
        field: 1,
        parent: 0,
        bits: 4,
        wide: 4,
        offset: 0,
        base: 0,
    };
    let y = NodeSpec {
        kind: Kind::I32,
        field: 2,
        parent: 0,
        bits: 1,
        wide: 1,
        offset: 4,
        base: 0,
    };
    let layouts = Layouts::from_nodes([root, x, y].to_vec(rt.alloc())?, 1, false);
    let mut builder = Builder::new(rt.alloc());
    builder.int(5)?;
    builder.int(-1)?;
    builder.structure(&[1, 2])?;
    let tree = builder.finish();
    let mut region = Region::reserve(rt.alloc(), 1)?;
    freeze_into(&layouts, tree.top(), &mut region);
    assert_eq!(rt; region.finish().as_slice(), [0x15].as_slice());
    Ok(())
}
