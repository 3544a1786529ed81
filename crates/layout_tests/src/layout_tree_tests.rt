//! A small layout.

use layout_tree::{Kind, Layouts, NodeSpec};
use std::test::Fail;

#[test]
fn nodes_of_two_fields(rt: HostRuntime) -> Result<(), Fail> {
    let root = NodeSpec {
        kind: Kind::Struct,
        field: 0,
        parent: 0,
        bits: 5,
        wide: 5,
        offset: 0,
        base: 0,
    };
    let x = NodeSpec {
        kind: Kind::I32,
        field: 1,
        parent: 0,
        bits: 4,
        wide: 4,
        offset: 0,
        base: 0,
    };
    let y = NodeSpec {
        kind: Kind::I32,
        field: 2,
        parent: 0,
        bits: 1,
        wide: 1,
        offset: 4,
        base: 0,
    };
    let layouts = Layouts::from_nodes([root, x, y].to_vec(rt.alloc())?, 1, false);
    assert_eq!(rt; layouts.version(), 1);
    assert_eq!(rt; layouts.count(), 3);
    assert_eq!(rt; layouts.past(0), 3);
    assert_eq!(rt; layouts.child(0, 2), Some(2));
    assert_eq!(rt; layouts.node(2).offset, 4);
    assert!(rt; layouts.is_settled());
    Ok(())
}
