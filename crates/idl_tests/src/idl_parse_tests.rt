//! Texts with their answers, written by hand: the number of the fault and its line, 0 for a definition.
use idl_parse::{DefFault, DefaultRef, Need, TypeKind, parse};
use std::test::Fail;

fn number(fault: DefFault) -> (u32, u32) {
    match fault {
        DefFault::NotUtf8 => (1, 0),
        DefFault::Syntax { line } => (2, line),
        DefFault::Unsupported { line } => (3, line),
        DefFault::UnknownType { line } => (4, line),
        DefFault::RepeatedName { line } => (5, line),
        DefFault::RepeatedId { line } => (6, line),
        DefFault::BadId { line } => (7, line),
        DefFault::BadDefault { line } => (8, line),
        DefFault::KeyType { line } => (9, line),
        DefFault::TooDeep { line } => (10, line),
        DefFault::TooManyNodes { line } => (11, line),
        DefFault::StructTooWide { line } => (12, line),
        DefFault::NoRoot => (13, 0),
        DefFault::NoMemory => (14, 0),
    }
}

#[test]
fn texts_are_answered(rt: HostRuntime) -> Result<(), Fail> {
    let alloc = rt.alloc();
    let rows = [
        ("struct P {1: i32 x 2: i32 y}", (0, 0)),
        (
            "namespace * a.b; cpp_include 'x'\ntypedef list<i32> L (a = 1, b)\nenum E {A, B = 5; C}\nstruct S {1: required L l = [], 7: optional E e = E.C (x = 'y'); 3: map<E, set<string>> m = {} 4: bool b = 0x1}",
            (0, 0),
        ),
        ("struct S {1: i32 a, 1: i32 b}", (6, 1)),
        ("struct S {\n0: i32 a}", (7, 2)),
        ("struct S {32767: i32 a 32768: i32 b}", (7, 1)),
        ("struct S {1: T t}", (4, 1)),
        ("struct S {1: a.T t}", (2, 1)),
        ("struct S {1: S s}", (4, 1)),
        ("struct S {} struct S {}", (5, 1)),
        ("struct S {1: i32 a\n2: i32 a}", (5, 2)),
        ("struct S {1: double d}", (3, 1)),
        ("struct S {1: map<double,i32> m}", (3, 1)),
        (
            "struct S {1: map<i32,i32> (cpp.template = \"x\") m}",
            (3, 1),
        ),
        ("struct S {1: i32 a (x = cpp.type)}", (0, 0)),
        ("struct K {1: i32 x}\nstruct S {1: set<K> s}", (9, 2)),
        ("struct S {1: map<list<", (9, 1)),
        ("struct S {1: i32 x = [ 1 ]}", (8, 1)),
        ("struct S {1: list<i32> x = [ 1 ]}", (3, 1)),
        ("struct S {1: list<i32> x = [ }", (2, 1)),
        ("struct S {1: i8 x = -128 2: i8 y = 128}", (8, 1)),
        ("enum E {A = 2147483647,\nB", (8, 2)),
        ("enum E {A = 2147483647, B = 1} struct S {}", (0, 0)),
        ("enum E {A} typedef E F struct S {1: F f = E.A}", (0, 0)),
        ("enum E {A} typedef E F struct S {1: F f = F.A}", (8, 1)),
        ("struct S {1: string s = 'a\\\\b'}", (3, 1)),
        ("union U {1: i32 x}", (3, 1)),
        ("@x struct S {}", (3, 1)),
        ("const", (3, 1)),
        ("struct S {1: i32 x = 9223372036854775808}", (3, 1)),
        ("struct 9223372036854775808", (2, 1)),
        ("enum E {A}", (13, 0)),
        ("", (13, 0)),
        ("struct S {\n\n", (2, 3)),
        ("struct é {}", (2, 1)),
    ];
    for (text, want) in rows {
        assert!(rt; text.len() < 1000);
        let got = match parse(alloc, text.as_bytes()) {
            Ok(_) => (0, 0),
            Err(fault) => number(fault),
        };
        assert_eq!(rt; got, want, "{text}");
    }
    Ok(())
}

#[test]
fn references_tell_types(rt: HostRuntime) -> Result<(), Fail> {
    let alloc = rt.alloc();
    let text =
        "enum E {A} struct S {1: i32 x} struct T {7: required S s 2: map<E, list<string>> m = {}}";
    let def = parse(alloc, text.as_bytes())?;
    let root = def.root();
    assert_eq!(rt; root.name(), "T");
    assert_eq!(rt; root.field_count(), 2);
    let m = root.field(2).ok_or("2 is a field")?;
    assert_eq!(rt; m.name(), "m");
    assert_eq!(rt; m.ty().kind(), TypeKind::Map);
    assert!(rt; matches!(m.default(), DefaultRef::Empty));
    let s = root.field_named("s").ok_or("s is a field")?;
    assert_eq!(rt; s.id(), 7);
    assert_eq!(rt; s.need(), Need::Required);
    assert_eq!(rt; s.ty().kind(), TypeKind::Struct);
    assert!(rt; root.field(1).is_none() && root.field_named("t").is_none());
    Ok(())
}

#[test]
fn typedefs_of_lists_are_read(rt: HostRuntime) -> Result<(), Fail> {
    let alloc = rt.alloc();
    let text = "struct S {1: u t} typedef i8 u";
    assert!(rt; parse(alloc, text.as_bytes()).is_err());
    let text =
        "typedef i8 t0 typedef list<list<t0>> t1 typedef list<map<t0, t1>> t2 struct S {1: t2 x}";
    let def = parse(alloc, text.as_bytes())?;
    let x = def.root().field_named("x").ok_or("x is a field")?;
    assert_eq!(rt; x.ty().kind(), TypeKind::List);
    let map = x.ty().element();
    assert_eq!(rt; map.kind(), TypeKind::Map);
    assert_eq!(rt; map.key().kind(), TypeKind::I8);
    assert_eq!(rt; map.value().kind(), TypeKind::List);
    Ok(())
}
