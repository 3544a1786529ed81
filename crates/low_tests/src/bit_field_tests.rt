//! Fields and needs worked out by hand.

use bit_field::*;

// Each field's place, its width, and the number that stands there, unsigned and signed.
#[test]
fn fields(rt: HostRuntime) {
    let bytes = [0xb5, 0x01, 0x80, 0x00, 0xff, 0xff, 0xff, 0xff, 0xff, 0xff];
    for (bit, width, unsigned, signed) in [
        (0, 0, 0, 0),
        (0, 3, 5, -3),
        (0, 8, 0xb5, -75),
        (4, 5, 27, -5),
        (8, 16, 0x8001, -32767),
        (23, 1, 1, -1),
        (31, 9, 510, -2),
        (72, 8, 255, -1),
        (14, 64, 0xffff_ffff_fffc_0200, -261_632),
    ] {
        assert!(rt; width <= 64 && bit + u64::from(width) <= 80);
        assert_eq!(rt; read_bits(&bytes, bit, width), unsigned, "at {bit}");
        assert_eq!(rt; read_signed(&bytes, bit, width), signed, "at {bit}");
    }
}

#[test]
fn writes(rt: HostRuntime) {
    let mut short = [0xff, 0xff, 0xff];
    write_bits(&mut short, 6, 5, 0b01010);
    assert_eq!(rt; short, [0xbf, 0xfa, 0xff]);
    let mut long = [0u8; 11];
    write_bits(&mut long, 21, 64, 0x8000_0000_0000_0001);
    assert_eq!(rt; long, [0, 0, 0x20, 0, 0, 0, 0, 0, 0, 0, 0x10]);
    assert!(rt; all_zero(&long, 22, 84));
    assert!(rt; !all_zero(&long, 22, 85));
}

#[test]
fn needs(rt: HostRuntime) {
    for (x, need) in [
        (0, 0),
        (-1, 1),
        (1, 2),
        (-2, 2),
        (2, 3),
        (-3, 3),
        (i64::MAX, 64),
        (i64::MIN, 64),
    ] {
        assert_eq!(rt; need_signed(x), need, "of {x}");
    }
    for (x, need) in [(0, 0), (1, 1), (2, 2), (255, 8), (256, 9), (u64::MAX, 64)] {
        assert_eq!(rt; need_unsigned(x), need, "of {x}");
    }
}
