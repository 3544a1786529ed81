//! Worked rows, through the calls that read, measure, pack and write values.

use crate::contents::{freeze_value, frozen, has_contents};
use crate::passes::{first_pass, first_shape, range_passes, width};
use crate::values::{definition, fault_line, respelled, value, with_zeros};
use block_region::Region;
use std::test::Fail;

/// Values of each kind are packed to the contents worked out by hand, under layouts with the widths worked
/// out by hand.
#[test]
fn contents_in_both_versions(rt: HostRuntime) -> Result<(), Fail> {
    for (text, bytes, first_widths, first, second_widths, second) in [
        (
            "struct P {1: i32 x; 2: i32 y}",
            b"\x15\x0a\x15\x01\x00".as_slice(),
            [(1, 4), (2, 1)].as_slice(),
            b"\x15".as_slice(),
            [].as_slice(),
            b"".as_slice(),
        ),
        (
            "struct T {1: list<string> s}",
            b"\x19\x48\x01\x61\x01\x62\x01\x63\x01\x64\x00".as_slice(),
            [(2, 1), (3, 3), (5, 3), (6, 1)].as_slice(),
            b"\x09\xba\xdc\x61\x62\x63\x64".as_slice(),
            [(2, 1), (3, 3), (5, 3), (6, 1)].as_slice(),
            b"\x09\xba\xdc\x61\x62\x63\x64".as_slice(),
        ),
        (
            "struct B {1: bool f; 2: i64 m}",
            b"\x11\x16\xff\xff\xff\xff\xff\xff\xff\xff\xff\x01\x00".as_slice(),
            [(1, 1), (2, 64)].as_slice(),
            b"\x01\x00\x00\x00\x00\x00\x00\x00\x01".as_slice(),
            [(1, 1)].as_slice(),
            b"\x01".as_slice(),
        ),
        (
            "struct E {1: i64 a; 2: i8 b; 3: i8 c}",
            b"\x16\xfe\xff\xff\xff\xff\xff\xff\xff\xff\x01\x13\x80\x13\x7f\x00".as_slice(),
            [(1, 64), (2, 8), (3, 8)].as_slice(),
            b"\xff\xff\xff\xff\xff\xff\xff\x7f\x80\x7f".as_slice(),
            [].as_slice(),
            b"".as_slice(),
        ),
        (
            "struct O {1: optional i32 a} struct H {1: list<O> os}",
            b"\x19\x3c\x15\x00\x00\x00\x15\x0a\x00\x00".as_slice(),
            [(2, 1), (3, 2), (6, 1), (7, 4)].as_slice(),
            b"\x07\x01\x2c".as_slice(),
            [(2, 1), (3, 2), (6, 1), (7, 3)].as_slice(),
            b"\x07\x01\x0b".as_slice(),
        ),
        (
            "struct M {1: map<i32,string> m}",
            b"\x1b\x03\x58\x12\x01\x69\x0a\x01\x65\x02\x01\x61\x00".as_slice(),
            [(2, 1), (3, 2), (5, 5), (7, 3), (8, 1)].as_slice(),
            b"\x07\x81\x4b\x27\x07\x61\x65\x69".as_slice(),
            [(2, 1), (3, 2), (5, 4), (7, 3), (8, 1)].as_slice(),
            b"\x07\xb0\xc4\xd8\x61\x65\x69".as_slice(),
        ),
    ] {
        assert!(rt;
            has_contents(
                rt.alloc(),
                text,
                bytes,
                first_widths,
                first,
                second_widths,
                second
            )?
        );
    }
    Ok(())
}

/// A million zeros take no more than their distance and their count.
#[test]
fn a_million_zeros(rt: HostRuntime) -> Result<(), Fail> {
    let bytes = with_zeros(rt.alloc(), b"\x19\xf5\xc0\x84\x3d", 1_000_001)?;
    let widths = [(2, 2), (3, 20)];
    let content = b"\x03\x09\x3d".as_slice();
    assert!(rt;
        has_contents(
            rt.alloc(),
            "struct Z {1: list<i32> z}",
            &bytes,
            &widths,
            content,
            &widths,
            content
        )?
    );
    Ok(())
}

/// Numbers all alike take no bits, and numbers from their least one few; two numbers may take 64.
#[test]
fn widths_of_numbers(rt: HostRuntime) -> Result<(), Fail> {
    for (text, bytes, content) in [
        (
            "struct P {1: i32 x; 2: i32 y}",
            b"\x15\x00\x15\x00\x00".as_slice(),
            b"".as_slice(),
        ),
        (
            "struct P {1: i32 x; 2: i32 y}",
            b"\x00".as_slice(),
            b"".as_slice(),
        ),
        (
            "struct V {1: list<i32> v}",
            b"\x19\x35\xd0\x0f\xd2\x0f\xd6\x0f\x00".as_slice(),
            b"\x07\x34".as_slice(),
        ),
        (
            "struct V {1: list<i64> v}",
            b"\x19\x26\xff\xff\xff\xff\xff\xff\xff\xff\xff\x01\xfe\xff\xff\xff\xff\xff\xff\xff\xff\x01\x00".as_slice(),
            b"\x05\x00\x00\x00\x00\x00\x00\x00\x00\xff\xff\xff\xff\xff\xff\xff\xff".as_slice(),
        ),
        (
            "struct W {1: i32 a; 2: string n} struct T {1: list<W> w}",
            b"\x19\x3c\x15\x0a\x18\x01\x78\x00\x15\x0e\x18\x01\x79\x00\x15\x0a\x18\x01\x7a\x00\x00".as_slice(),
            b"\x07\xac\x4c\x03\x78\x79\x7a".as_slice(),
        ),
    ] {
        assert_eq!(rt; frozen(rt.alloc(), text, bytes)?.as_slice(), content);
    }
    Ok(())
}

/// Longer spellings, full field headers and unknown fields are read, and written as the canonical spelling.
#[test]
fn other_spellings(rt: HostRuntime) -> Result<(), Fail> {
    for bytes in [
        b"\x15\x8a\x00\x15\x01\x00".as_slice(),
        b"\x05\x02\x8a\x00\x05\x04\x01\x00".as_slice(),
        b"\x15\x0a\x15\x01\x57\x00\x00\x00\x00\x00\x00\x00\x00\x00".as_slice(),
    ] {
        let written = respelled(rt.alloc(), "struct P {1: i32 x; 2: i32 y}", bytes)?;
        assert_eq!(rt; written.as_slice(), b"\x15\x0a\x15\x01\x00".as_slice());
    }
    Ok(())
}

/// Bytes that are no value are refused by their first fault.
#[test]
fn faults_of_values(rt: HostRuntime) -> Result<(), Fail> {
    for (text, bytes, line) in [
        (
            "struct M {1: map<i32,string> m}",
            b"\x1b\x02\x58\x02\x01\x61\x02\x01\x62\x00".as_slice(),
            "value 5 node 4",
        ),
        (
            "struct P {1: i32 x; 2: i32 y}",
            b"".as_slice(),
            "value wire 1",
        ),
        (
            "struct P {1: i32 x; 2: i32 y}",
            b"\x15".as_slice(),
            "value wire 1",
        ),
        (
            "struct P {1: i32 x; 2: i32 y}",
            b"\x15\x0a".as_slice(),
            "value wire 1",
        ),
        (
            "struct P {1: i32 x; 2: i32 y}",
            b"\x15\x0a\x15".as_slice(),
            "value wire 1",
        ),
        (
            "struct P {1: i32 x; 2: i32 y}",
            b"\x15\x0a\x15\x01".as_slice(),
            "value wire 1",
        ),
        (
            "struct P {1: i32 x; 2: i32 y}",
            b"\x1d".as_slice(),
            "value wire 2 at 0",
        ),
        (
            "struct P {1: i32 x; 2: i32 y}",
            b"\x15\x0a\x15\x01\x00\x00".as_slice(),
            "value wire 3 at 5",
        ),
        (
            "struct P {1: i32 x; 2: i32 y}",
            b"\x14\x0a\x00".as_slice(),
            "value 3 node 1",
        ),
        (
            "struct P {1: i32 x; 2: i32 y}",
            b"\x15\x0a\x05\x02\x0a\x00".as_slice(),
            "value 1 node 2",
        ),
        (
            "struct Q {1: required i32 x}",
            b"\x00".as_slice(),
            "value 2 node 0 field 1",
        ),
        (
            "struct S {1: string s}",
            b"\x18\x01\xff\x00".as_slice(),
            "value 4 node 1",
        ),
    ] {
        assert_eq!(rt; fault_line(rt.alloc(), text, bytes)?.as_str(), line);
    }
    Ok(())
}

/// A value over the limit of cells is refused with its cells, and one with an item less is read.
#[test]
fn cells_of_a_value(rt: HostRuntime) -> Result<(), Fail> {
    let name = "T".repeat(rt.alloc(), 1000)?;
    let text = format!(in rt.alloc();
        "struct D {{1: string t = \"{name}\"}} struct L {{1: list<D> l}}"
    )?;
    let over = with_zeros(rt.alloc(), b"\x19\xfc\xaf\x85\x02", 33456)?;
    assert_eq!(rt;
        fault_line(rt.alloc(), &text, &over)?.as_str(),
        "value 6 cells 33555367"
    );
    let within = with_zeros(rt.alloc(), b"\x19\xfc\xae\x85\x02", 33455)?;
    assert_eq!(rt; fault_line(rt.alloc(), &text, &within)?.as_str(), "");
    Ok(())
}

/// As many items of no bits as the limit of cells allows take no bytes but those of their distance and count.
#[test]
fn items_of_no_bits(rt: HostRuntime) -> Result<(), Fail> {
    let bytes = with_zeros(rt.alloc(), b"\x19\xfc\xfe\xff\xff\x0f", 33_554_431)?;
    let content = frozen(rt.alloc(), "struct N {} struct G {1: list<N> l}", &bytes)?;
    assert_eq!(rt; content.as_slice(), b"\xf4\xff\xff\x0f".as_slice());
    Ok(())
}

/// A struct with as many fields as a definition may have: of its flags, all false but the last, one takes a
/// bit.
#[test]
fn as_many_nodes_as_there_may_be(rt: HostRuntime) -> Result<(), Fail> {
    let mut text = String::new(rt.alloc());
    text.push_str("struct S {")?;
    for n in 1..4096 {
        text.push_str(format!(in rt.alloc(); "{n}: bool f{n} ")?.as_str())?;
    }
    text.push_str("}")?;
    let def = definition(rt.alloc(), &text)?;
    let tree = value(rt.alloc(), &def, b"\x01\xfe\x3f\x00")?;
    let frozen = freeze_value(rt.alloc(), &def, &tree)?;
    assert_eq!(rt; frozen.layouts.count(), 4096);
    assert_eq!(rt; width(&frozen.layouts, 4094), Some(0));
    assert_eq!(rt; width(&frozen.layouts, 4095), Some(1));
    assert_eq!(rt; frozen.content.as_slice(), b"\x01".as_slice());
    Ok(())
}

/// From the shape of version 1, two passes over four texts widen the layout and the third does not.
#[test]
fn passes_over_texts(rt: HostRuntime) -> Result<(), Fail> {
    let def = definition(rt.alloc(), "struct T {1: list<string> s}")?;
    let tree = value(
        rt.alloc(),
        &def,
        b"\x19\x48\x01\x61\x01\x62\x01\x63\x01\x64\x00",
    )?;
    let mut layouts = first_shape(rt.alloc(), &def, tree.top())?;
    assert!(rt; first_pass(&mut layouts, tree.top()));
    for (node, bits) in [(2, 0), (3, 3), (5, 2), (6, 1)] {
        assert_eq!(rt; width(&layouts, node), Some(bits));
    }
    assert!(rt; first_pass(&mut layouts, tree.top()));
    for (node, bits) in [(2, 1), (3, 3), (5, 3), (6, 1)] {
        assert_eq!(rt; width(&layouts, node), Some(bits));
    }
    assert!(rt; !first_pass(&mut layouts, tree.top()));
    Ok(())
}

/// Where all numbers are 0, the first pass widens nothing.
#[test]
fn one_pass_over_zeros(rt: HostRuntime) -> Result<(), Fail> {
    let def = definition(rt.alloc(), "struct P {1: i32 x; 2: i32 y}")?;
    let tree = value(rt.alloc(), &def, b"\x00")?;
    let mut layouts = first_shape(rt.alloc(), &def, tree.top())?;
    assert!(rt; !first_pass(&mut layouts, tree.top()));
    Ok(())
}

/// Behind one pass over four texts, one pass over their ranges widens the distances and the next does not,
/// and the layout is the least one.
#[test]
fn passes_over_ranges(rt: HostRuntime) -> Result<(), Fail> {
    let def = definition(rt.alloc(), "struct T {1: list<string> s}")?;
    let tree = value(
        rt.alloc(),
        &def,
        b"\x19\x48\x01\x61\x01\x62\x01\x63\x01\x64\x00",
    )?;
    let least = freeze_value(rt.alloc(), &def, &tree)?;
    let answers = range_passes(rt.alloc(), &def, tree.top(), &least.layouts)?;
    assert_eq!(rt; answers.ranges, 6);
    assert!(rt; answers.first);
    assert!(rt; !answers.second);
    assert!(rt; answers.same);
    Ok(())
}

/// A region of three bytes has no block of four, and keeps its three for the next.
#[test]
fn three_bytes_are_not_four(rt: HostRuntime) -> Result<(), Fail> {
    let mut region = Region::reserve(rt.alloc(), 3)?;
    assert!(rt; region.take(4).is_none());
    let block = region.take(3).ok_or("three bytes")?;
    assert_eq!(rt; region.left(), 0);
    assert_eq!(rt; region.bytes(&block), [0, 0, 0].as_slice());
    assert_eq!(rt; region.finish().as_slice(), [0, 0, 0].as_slice());
    Ok(())
}
