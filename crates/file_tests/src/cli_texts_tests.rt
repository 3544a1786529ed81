//! A worked listing, and that a demo is made.

use cli_texts::{demo_users, layout_text};
use layout_tree::{Kind, Layouts, NodeSpec};
use std::test::Fail;

#[test]
fn two_fields_are_listed(rt: HostRuntime) -> Result<(), Fail> {
    let root = NodeSpec {
        kind: Kind::Struct,
        field: 0,
        parent: 0,
        bits: 5,
        wide: 5,
        offset: 0,
        base: 0,
    };
    let x = NodeSpec {
        kind: Kind::I32,
        field: 1,
        parent: 0,
        bits: 4,
        wide: 4,
        offset: 0,
        base: 0,
    };
    let y = NodeSpec {
        kind: Kind::I32,
        field: 2,
        parent: 0,
        bits: 1,
        wide: 1,
        offset: 4,
        base: 0,
    };
    let layouts = Layouts::from_nodes([root, x, y].to_vec(rt.alloc())?, 1, false);
    let text = layout_text(rt.alloc(), &layouts)?;
    assert_eq!(rt;
        text.as_str(),
        "0 - - struct 5 0\n1 0 1 i32 4 0\n2 0 2 i32 1 4\n"
    );
    Ok(())
}

#[test]
fn a_demo_is_made(rt: HostRuntime) -> Result<(), Fail> {
    demo_users(rt.alloc(), 7)?;
    Ok(())
}
