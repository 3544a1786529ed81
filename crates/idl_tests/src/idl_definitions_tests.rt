//! A text with an enum, a typedef and a struct.
use idl_definitions::read_definitions;
use idl_tokens::split;
use std::test::Fail;

#[test]
fn a_text_is_read_from_its_tokens(rt: HostRuntime) -> Result<(), Fail> {
    let text = "enum E {A} typedef list<E> L struct S {2: L l, 1: i32 x}";
    let tokens = split(rt.alloc(), text)?;
    match read_definitions(rt.alloc(), text, &tokens) {
        Ok((scope, rest)) => {
            assert_eq!(rt; scope.named.len(), 2);
            assert_eq!(rt; scope.entries.len(), 3);
            assert_eq!(rt; rest.len(), 1);
        }
        Err(_) => assert!(rt; false, "the text means a definition"),
    }
    Ok(())
}
