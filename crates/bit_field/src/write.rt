//! Writing.

ghost use Rattle.std.specs.Prelude.{◌≡◌, ◌+◌, ◌-◌, ◌*◌, ◌^◌, ◌<◌, ◌≤◌, ◌++◌, length, drop, take};
ghost use Rattle.frozen_model.specs.Bits.{bits, bits_of};
ghost use Rattle.bit_field.specs.Words.{Replaces};

use crate::word::{ones, write_word};

/// Writes a field near the end of the bytes, over nine bytes, or in a slice of fewer than eight.
#[cold]
#[inline(never)]
fn write_rest(bytes: &mut [u8], bit: u64, width: u32, x: u64)
    requires wide { width ≤ 64 }
    requires inside { bit + width ≤ 8 * length bytes.old }
    requires fits { x < 2 ^ width }
    requires some { 0 < width }
    ensures { Replaces bytes.old bytes.new bit width x }
{
    let len = bytes.len();
    if len < 8 {
        let mut padded = [0u8; 8];
        padded[..len].copy_from_slice(bytes);
        write_word(&mut padded, 0, bit as u32, width, x);
        bytes.copy_from_slice(&padded[..len]);
        return;
    }
    let first = ((bit / 8) as usize).min(len - 8);
    let shift = (bit - 8 * first as u64) as u32;
    let seen = 64 - shift;
    if width <= seen {
        write_word(bytes, first, shift, width, x);
    } else {
        write_word(bytes, first, shift, seen, x & ones(seen));
        write_word(bytes, first + 1, 56, width - seen, x >> seen);
    }
}

/// Writes `x` into the `width` bits from `bit` on, lowest first, and leaves every other bit.
#[inline]
pub fn write_bits(bytes: &mut [u8], bit: u64, width: u32, x: u64)
    requires wide { width ≤ 64 }
    requires inside { bit + width ≤ 8 * length bytes.old }
    requires fits { x < 2 ^ width }
    ensures { bits_of bytes.new ≡ take bit (bits_of bytes.old) ++ (bits width x ++ drop (bit + width) (bits_of bytes.old)) }
{
    let first = (bit / 8) as usize;
    if width <= 57 && first + 8 <= bytes.len() {
        write_word(bytes, first, (bit % 8) as u32, width, x);
    } else if width > 0 {
        write_rest(bytes, bit, width, x);
    }
}
