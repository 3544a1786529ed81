//! Worked contents, and what is wrong with others.
ghost use Rattle.std.specs.Prelude.{◌≡◌, pos};
ghost use Rattle.content_check.specs.Nodes.{node_of};

use content_check::{ContentFault, check_content};
use layout_tree::{Kind, Layouts, NodeSpec};
use std::alloc::{AllocError, Global};
use std::test::Fail;

// A node with its noted width.
fn node(kind: Kind, field: i16, parent: u32, bits: u32, offset: u32) -> NodeSpec
    ensures { result ≡ node_of kind field parent bits offset }
{
    NodeSpec {
        kind,
        field,
        parent,
        bits,
        wide: bits,
        offset,
        base: 0,
    }
}

// A list of texts.
fn list_of_texts(alloc: Global) -> Result<Layouts, AllocError> {
    let nodes = [
        node(Kind::Struct, 0, 0, 4, 0),
        node(Kind::List, 1, 0, 4, 0),
        node(Kind::Size, 1, 1, 1, 0),
        node(Kind::Size, 2, 1, 3, 1),
        node(Kind::Text, 3, 1, 4, 0),
        node(Kind::Size, 1, 4, 3, 0),
        node(Kind::Size, 2, 4, 1, 3),
    ];
    Ok(Layouts::from_nodes(nodes.to_vec(alloc)?, 1, false))
}

#[test]
fn damaged_content(rt: HostRuntime) -> Result<(), Fail> {
    let layouts = list_of_texts(rt.alloc())?;
    let whole = [9, 186, 220, 97, 98, 99, 100];
    assert_eq!(rt; check_content(&layouts, &whole), Ok(18));
    let far = [9, 187, 220, 97, 98, 99, 100];
    let distance = ContentFault::Distance {
        bit: 8,
        found: 3,
        wanted: 2,
    };
    assert_eq!(rt; check_content(&layouts, &far), Err(distance));
    assert_eq!(rt;
        check_content(&layouts, &whole[..6]),
        Err(ContentFault::Short)
    );
    let long = [9, 186, 220, 97, 98, 99, 100, 101];
    assert_eq!(rt; check_content(&layouts, &long), Err(ContentFault::Long(1)));
    let dirty = [25, 186, 220, 97, 98, 99, 100];
    assert_eq!(rt;
        check_content(&layouts, &dirty),
        Err(ContentFault::Dirty(4))
    );
    let text = [9, 186, 220, 255, 98, 99, 100];
    assert_eq!(rt;
        check_content(&layouts, &text),
        Err(ContentFault::BadText(3))
    );
    Ok(())
}

// A map of numbers and texts.
fn map_of_texts(alloc: Global) -> Result<Layouts, AllocError> {
    let nodes = [
        node(Kind::Struct, 0, 0, 3, 0),
        node(Kind::Map, 1, 0, 3, 0),
        node(Kind::Size, 1, 1, 1, 0),
        node(Kind::Size, 2, 1, 2, 1),
        node(Kind::Pair, 3, 1, 9, 0),
        node(Kind::I32, 1, 4, 5, 0),
        node(Kind::Text, 2, 4, 4, 5),
        node(Kind::Size, 1, 6, 3, 0),
        node(Kind::Size, 2, 6, 1, 3),
    ];
    Ok(Layouts::from_nodes(nodes.to_vec(alloc)?, 1, false))
}

// A list of structs with an optional number.
fn optional_items(alloc: Global) -> Result<Layouts, AllocError> {
    let nodes = [
        node(Kind::Struct, 0, 0, 3, 0),
        node(Kind::List, 1, 0, 3, 0),
        node(Kind::Size, 1, 1, 1, 0),
        node(Kind::Size, 2, 1, 2, 1),
        node(Kind::Struct, 3, 1, 5, 0),
        node(Kind::Optional, 1, 4, 5, 0),
        node(Kind::Flag, 1, 5, 1, 0),
        node(Kind::I32, 2, 5, 4, 1),
    ];
    Ok(Layouts::from_nodes(nodes.to_vec(alloc)?, 1, false))
}

#[test]
fn keys_out_of_order_and_dirty_optional(rt: HostRuntime) -> Result<(), Fail> {
    let map = map_of_texts(rt.alloc())?;
    let rising = [7, 129, 75, 39, 7, 97, 101, 105];
    assert_eq!(rt; check_content(&map, &rising), Ok(17));
    let exchanged = [7, 133, 67, 39, 7, 97, 101, 105];
    assert_eq!(rt;
        check_content(&map, &exchanged),
        Err(ContentFault::KeyOrder(17))
    );
    let list = optional_items(rt.alloc())?;
    assert_eq!(rt; check_content(&list, &[7, 1, 44]), Ok(11));
    assert_eq!(rt;
        check_content(&list, &[7, 65, 44]),
        Err(ContentFault::Dirty(14))
    );
    Ok(())
}

// A list of structs without fields.
fn empty_structs(alloc: Global) -> Result<Layouts, AllocError> {
    let nodes = [
        node(Kind::Struct, 0, 0, 28, 0),
        node(Kind::List, 1, 0, 28, 0),
        node(Kind::Size, 1, 1, 3, 0),
        node(Kind::Size, 2, 1, 25, 3),
        node(Kind::Struct, 3, 1, 0, 0),
    ];
    Ok(Layouts::from_nodes(nodes.to_vec(alloc)?, 1, false))
}

#[test]
fn cells_of_a_file(rt: HostRuntime) -> Result<(), Fail> {
    let layouts = empty_structs(rt.alloc())?;
    let most = [0xf4, 0xff, 0xff, 0x0f];
    assert_eq!(rt; check_content(&layouts, &most), Ok(33_554_432));
    let more = [0xfc, 0xff, 0xff, 0x0f];
    assert_eq!(rt;
        check_content(&layouts, &more),
        Err(ContentFault::TooManyCells)
    );
    Ok(())
}
