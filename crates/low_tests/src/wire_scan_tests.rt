//! Bytes that spell a struct, and bytes that do not.

use compact_wire::WireFault;
use wire_scan::scan_wire;

#[test]
fn scans_a_struct(rt: HostRuntime) {
    // Field 1, an i32 of 1, and the end.
    assert!(rt; scan_wire(b"\x15\x02\x00").is_ok());
    // The same without its end, and with a byte more.
    assert!(rt; matches!(scan_wire(b"\x15\x02"), Err(WireFault::Truncated)));
    assert!(rt; matches!(scan_wire(b"\x15\x02\x00\x07"), Err(WireFault::Trailing(3))));
}

#[test]
fn each_form(rt: HostRuntime) {
    for (bytes, place) in [
        // flags in headers and in a list, maps with no pair and with one, a double, a binary, a set of lists
        (b"\x11\x12\x00".as_slice(), 0u64),
        (b"\x19\x32\x01\x00\x02\x00".as_slice(), 0),
        (b"\x1B\x00\x1B\x01\x38\x07\x02hi\x00".as_slice(), 0),
        (b"\x17\x00\x00\x00\x00\x00\x00\xF0\x3F\x00".as_slice(), 0),
        (b"\x1A\x29\x13\x07\x03\x00".as_slice(), 0),
        // an element code 13, a flag 3 in a list, an i16 of 17 bits
        (b"\x19\x1D".as_slice(), 1),
        (b"\x19\x11\x03".as_slice(), 2),
        (b"\x14\xFF\xFF\x04\x00".as_slice(), 3),
    ] {
        match scan_wire(bytes) {
            Ok(()) => assert_eq!(rt; place, 0, "at {bytes:?}"),
            Err(WireFault::Malformed(at)) => assert_eq!(rt; at, place, "at {bytes:?}"),
            Err(_) => assert!(rt; false, "at {bytes:?}"),
        }
    }
}
