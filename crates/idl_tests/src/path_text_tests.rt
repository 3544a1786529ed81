//! Paths, with answers worked out by hand.

use path_text::{KeyLit, PathFault, StepKind, fit, fit_scan, parse_path};
use std::test::Fail;
use thrift_idl::{TypeKind, parse};

#[test]
fn a_path_and_where_it_leads(rt: HostRuntime) -> Result<(), Fail> {
    let text =
        "struct User {1: i32 id; 2: list<string> tags} struct Users {1: map<i32,User> users}";
    let def = parse(rt.alloc(), text.as_bytes())?;
    let path = parse_path(rt.alloc(), ".users{7}.tags[0]")?;
    assert_eq!(rt; path.steps.len(), 4);
    assert_eq!(rt; path.steps[2].place, 9);
    assert!(rt; matches!(&path.steps[1].kind, StepKind::Key(KeyLit::Int(7))));
    assert!(rt; matches!(fit(&def, &path)?.kind(), TypeKind::Text));
    // A text has no items to go over.
    match fit_scan(&def, &path) {
        Err(PathFault::NotAStep(place)) => assert_eq!(rt; place, 17),
        _ => assert!(rt; false),
    }
    Ok(())
}

// The number of a fault and its place.
fn number(fault: PathFault) -> (u32, u64) {
    match fault {
        PathFault::PathSyntax(place) => (1, place),
        PathFault::NoField(place) => (2, place),
        PathFault::NotAStep(place) => (3, place),
        PathFault::BadKey(place) => (4, place),
        PathFault::NoMemory => (5, 0),
    }
}

// Paths with the numbers of their faults and the places, (0, 0) where there is none.
#[test]
fn scans_are_answered(rt: HostRuntime) -> Result<(), Fail> {
    let text = "enum E {A} struct R {1: map<i8,list<i32>> m 2: set<string> s 3: map<E,i64> e}";
    let def = parse(rt.alloc(), text.as_bytes())?;
    let rows = [
        (".m", (0, 0)),
        (".m{-128}", (0, 0)),
        (".m{128}", (4, 2)),
        (".m{true}", (4, 2)),
        (".m{7}[18446744073709551615]", (3, 27)),
        (".m[0]", (3, 2)),
        (".m{7}.x", (3, 5)),
        (".s{\"a\"}", (3, 7)),
        (".s{#}", (4, 2)),
        (".e{2147483648}", (4, 2)),
        (".e{A}", (1, 2)),
        (".x{300}", (2, 0)),
        ("", (3, 0)),
    ];
    for (text, want) in rows {
        let got = match parse_path(rt.alloc(), text) {
            Ok(path) => match fit_scan(&def, &path) {
                Ok(_) => (0, 0),
                Err(fault) => number(fault),
            },
            Err(fault) => number(fault),
        };
        assert_eq!(rt; got, want, "{text}");
    }
    Ok(())
}
