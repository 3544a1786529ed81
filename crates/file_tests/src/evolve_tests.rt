//! Files read under other definitions than their own, with answers worked out by hand.

use crate::frozen_file_tests::{FILE, value};
use evolve::{BindFault, bind, root_lens};
use file_check::open_frozen;
use frozen_file::frozen_file;
use json_line::json_line;
use std::test::Fail;
use thrift_idl::parse;

#[test]
fn fields_are_bound_by_their_ids(rt: HostRuntime) -> Result<(), Fail> {
    // fields 1 and 2 of the file are 5 and -1
    let own = parse(
        rt.alloc(),
        b"struct R {2: i64 b 3: optional i32 c 4: i8 d = 7}",
    )?;
    let opened = open_frozen(rt.alloc(), FILE)?;
    let plan = bind(rt.alloc(), &own, &opened)?;
    let line = json_line(rt.alloc(), root_lens(&own, &opened, &plan))?;
    assert_eq!(rt; line.as_str(), "{\"b\":-1,\"d\":7}\n");
    Ok(())
}

#[test]
fn the_first_node_that_does_not_bind_is_told(rt: HostRuntime) -> Result<(), Fail> {
    let file = parse(rt.alloc(), b"struct W {1: map<i32,list<string>> m}")?;
    let own = parse(
        rt.alloc(),
        b"struct R {1: map<i32,list<binary>> m 2: required i32 b}",
    )?;
    let tree = value(rt.alloc(), &file, b"\x1B\0\0")?;
    let bytes = frozen_file(rt.alloc(), &file, tree.top())?;
    assert!(rt; bytes.len() < 1000);
    let opened = open_frozen(rt.alloc(), &bytes)?;
    let answer = bind(rt.alloc(), &own, &opened);
    match &answer {
        Err(BindFault::TypeChanged(ids)) => assert!(rt; ids.as_slice() == [1, 3, 2, 3].as_slice()),
        _ => assert!(rt; false),
    }
    Ok(())
}
