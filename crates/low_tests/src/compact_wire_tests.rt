//! Spellings and refusals, worked out by hand from docs/COMPACT.md.

use compact_wire::*;
use std::alloc::{AllocError, Global};
use std::test::*;

/// 1000 for a struct, and else the fault's number in thousands, from 2, and its place.
fn outcome(rt: &HostRuntime, bytes: &[u8]) -> u64 {
    match read_wire(rt.alloc(), bytes) {
        Ok(_) => 1000,
        Err(WireFault::Truncated) => 2000,
        Err(WireFault::Malformed(p)) => 3000u64.saturating_add(p),
        Err(WireFault::Trailing(p)) => 4000u64.saturating_add(p),
        Err(WireFault::NoMemory) => 5000,
    }
}

/// The canonical spelling of what the bytes spell.
fn rewritten(alloc: Global, bytes: &[u8]) -> Result<Option<Vec<u8>>, AllocError> {
    match read_wire(alloc, bytes) {
        Ok(wire) => Ok(Some(write_wire(alloc, &wire)?)),
        Err(_) => Ok(None),
    }
}

#[test]
fn an_overlong_number(rt: HostRuntime) -> Result<(), Fail> {
    // Field 1, an i32 of 1 in three bytes where one is enough, and the end.
    let bytes = b"\x15\x82\x80\x00\x00";
    let wire = read_wire(rt.alloc(), bytes)?;
    let written = write_wire(rt.alloc(), &wire)?;
    assert_eq!(rt; written.as_slice(), b"\x15\x02\x00".as_slice());
    Ok(())
}

#[test]
fn spellings_and_refusals(rt: HostRuntime) {
    for (bytes, want) in [
        // no field; an i32 of 0 in one byte and in five; a long header where a short one fits
        (b"\x00".as_slice(), 1000),
        (b"\x15\x00\x00".as_slice(), 1000),
        (b"\x15\x80\x80\x80\x80\x00\x00".as_slice(), 1000),
        (b"\x05\x02\x02\x00".as_slice(), 1000),
        // bools in headers and in a list whose code is 2; an empty list of structs; a long header for one
        // item
        (b"\x11\x12\x00".as_slice(), 1000),
        (b"\x19\x32\x01\x00\x02\x00".as_slice(), 1000),
        (b"\x19\x0C\x00".as_slice(), 1000),
        (b"\x19\xF3\x01\x07\x00".as_slice(), 1000),
        // an empty map, with a size in two bytes; a map of i8 to string; a double; ids that fall
        (b"\x1B\x80\x00\x00".as_slice(), 1000),
        (b"\x1B\x01\x38\x07\x02hi\x00".as_slice(), 1000),
        (b"\x17\x00\x00\x00\x00\x00\x00\xF0\x3F\x00".as_slice(), 1000),
        (b"\x25\x02\x05\x02\x02\x00".as_slice(), 1000),
        // the greatest id, and one more by a step
        (b"\x05\xFE\xFF\x03\x02\x00".as_slice(), 1000),
        (b"\x05\xFE\xFF\x03\x02\x15\x02\x00".as_slice(), 3005),
        // too early an end
        (b"".as_slice(), 2000),
        (b"\x15\x80".as_slice(), 2000),
        (b"\x18\x05hell".as_slice(), 2000),
        // codes 0 and 13; an element code 0; a bool element 3; a map's code 0
        (b"\x10".as_slice(), 3000),
        (b"\x1D".as_slice(), 3000),
        (b"\x19\x10".as_slice(), 3001),
        (b"\x19\x11\x03".as_slice(), 3002),
        (b"\x1B\x01\x03".as_slice(), 3002),
        // an i32 in six bytes and one of 33 bits; an i16 of 17 bits; a length of 32 bits
        (b"\x15\x80\x80\x80\x80\x80\x00\x00".as_slice(), 3005),
        (b"\x15\xFF\xFF\xFF\xFF\x10\x00".as_slice(), 3005),
        (b"\x14\xFF\xFF\x04\x00".as_slice(), 3003),
        (b"\x18\x80\x80\x80\x80\x08\x00".as_slice(), 3005),
        // more bytes behind a struct
        (b"\x15\x02\x00\x15".as_slice(), 4003),
    ] {
        assert_eq!(rt; outcome(&rt, bytes), want, "at {bytes:?}");
    }
}

#[test]
fn levels(rt: HostRuntime) -> Result<(), Fail> {
    // 63 structs in one another below the root are at level 64, one more is too deep
    let mut bytes = vec![in rt.alloc(); 0x1C_u8; 63]?;
    bytes.extend_from_slice([0u8; 64].as_slice())?;
    assert_eq!(rt; outcome(&rt, bytes.as_slice()), 1000);
    bytes.insert(0, 0x1C)?;
    assert_eq!(rt; outcome(&rt, bytes.as_slice()), 3063);
    Ok(())
}

#[test]
fn rewrites(rt: HostRuntime) -> Result<(), Fail> {
    for (bytes, want) in [
        (
            b"\x05\x02\x82\x80\x00\x00".as_slice(),
            b"\x15\x02\x00".as_slice(),
        ),
        (
            b"\x05\x22\x82\x00\x00".as_slice(),
            b"\x05\x22\x02\x00".as_slice(),
        ),
        (
            b"\x19\xF2\x02\x01\x00\x00".as_slice(),
            b"\x19\x21\x01\x02\x00".as_slice(),
        ),
        (
            b"\x1B\x81\x00\x33\x07\xF9\x00".as_slice(),
            b"\x1B\x01\x33\x07\xF9\x00".as_slice(),
        ),
        (
            b"\x1B\x80\x00\x12\x18\x02hi\x00".as_slice(),
            b"\x1B\x00\x12\x18\x02hi\x00".as_slice(),
        ),
    ] {
        let written = rewritten(rt.alloc(), bytes)?.ok_or("a struct")?;
        assert_eq!(rt; written.as_slice(), want, "at {bytes:?}");
    }
    Ok(())
}
