//! A worked content.

use bit_view::View;
use layout_tree::{Kind, Layouts, NodeSpec};
use std::test::Fail;

#[test]
fn two_fields_are_read(rt: HostRuntime) -> Result<(), Fail> {
    let root = NodeSpec {
        kind: Kind::Struct,
        field: 0,
        parent: 0,
        bits: 5,
        wide: 5,
        offset: 0,
        base: 0,
    };
    let x = NodeSpec {
        kind: Kind::I32,
        field: 1,
        parent: 0,
        bits: 4,
        wide: 4,
        offset: 0,
        base: 0,
    };
    let y = NodeSpec {
        kind: Kind::I32,
        field: 2,
        parent: 0,
        bits: 1,
        wide: 1,
        offset: 4,
        base: 0,
    };
    let layouts = Layouts::from_nodes([root, x, y].to_vec(rt.alloc())?, 1, false);
    let content = [21];
    let whole = View::new(&content, &layouts);
    assert_eq!(rt; whole.child(1).int(), 5);
    assert_eq!(rt; whole.child(2).int(), -1);
    assert_eq!(rt; whole.second().int(), -1);
    Ok(())
}
