//! Texts with what is printed of their definitions, written by hand.
use idl_parse::parse;
use idl_print::print;
use std::test::Fail;

#[test]
fn a_definition_is_printed(rt: HostRuntime) -> Result<(), Fail> {
    let def = parse(rt.alloc(), b" struct P{1:i32 x,2:i32 y}")?;
    let text = print(rt.alloc(), &def)?;
    assert_eq!(rt; text.as_str(), "struct P {\n  1: i32 x;\n  2: i32 y;\n}\n");
    Ok(())
}

#[test]
fn texts_are_printed(rt: HostRuntime) -> Result<(), Fail> {
    let alloc = rt.alloc();
    let rows = [
        (
            " struct P{1:i32 x,2:i32 y}",
            "struct P {\n  1: i32 x;\n  2: i32 y;\n}\n",
        ),
        (
            "enum E {A = -7 B} typedef map<E, list<i8>> M struct S {3: optional M m = {} 1: required string s = 'say \"hi\"' 2: E e = E.B 4: bool b = 1 5: set<i64> l = {}}",
            "enum E {\n  A = -7,\n  B = -6,\n}\nstruct S {\n  1: required string s = 'say \"hi\"';\n  2: E e = -6;\n  3: optional map<E,list<i8>> m = {};\n  4: bool b = true;\n  5: set<i64> l = [];\n}\n",
        ),
    ];
    for (text, want) in rows {
        assert!(rt; text.len() < 1000);
        match parse(alloc, text.as_bytes()) {
            Ok(def) => {
                let got = print(alloc, &def)?;
                assert_eq!(rt; got.as_str(), want, "{text}");
            }
            Err(_) => assert_eq!(rt; "no definition", want, "{text}"),
        }
    }
    Ok(())
}
