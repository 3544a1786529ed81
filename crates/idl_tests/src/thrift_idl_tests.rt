//! A text through the one door.
use std::test::Fail;
use thrift_idl::{TypeKind, parse, print};

#[test]
fn a_text_is_read_and_printed(rt: HostRuntime) -> Result<(), Fail> {
    let def = parse(
        rt.alloc(),
        b"typedef list<i32> L struct S {1: optional L l}",
    )?;
    let field = def.root().field(1).ok_or("1 is a field")?;
    assert_eq!(rt; field.name(), "l");
    assert_eq!(rt; field.ty().kind(), TypeKind::List);
    let text = print(rt.alloc(), &def)?;
    assert_eq!(rt;
        text.as_str(),
        "struct S {\n  1: optional list<i32> l;\n}\n"
    );
    Ok(())
}
