//! Reading.

ghost use Rattle.std.specs.Prelude.{◌≡◌, ◌+◌, ◌-◌, ◌*◌, ◌^◌, ◌<◌, ◌≤◌, ◌↔◌, IsTrue, All, false, length, drop, take};
ghost use Rattle.frozen_model.specs.Bits.{bits, bits_of, field, signed, complement, need_signed};

use crate::word::{ones, read_word, sign_extended, word_at};
use byteorder::{ByteOrder, LittleEndian};

/// The field near the end of the bytes, over nine bytes, or in a slice of fewer than eight.
#[cold]
#[inline(never)]
fn read_rest(bytes: &[u8], bit: u64, width: u32) -> u64
    requires wide { width ≤ 64 }
    requires inside { bit + width ≤ 8 * length bytes.now }
    ensures { result ≡ field bytes.now bit width }
{
    let len = bytes.len();
    if width == 0 {
        return 0;
    }
    if len < 8 {
        let mut padded = [0u8; 8];
        padded[..len].copy_from_slice(bytes);
        return (LittleEndian::read_u64(&padded) >> bit) & ones(width);
    }
    let first = ((bit / 8) as usize).min(len - 8);
    let shift = (bit - 8 * first as u64) as u32;
    let seen = 64 - shift;
    if width <= seen {
        return read_word(bytes, first, shift, width);
    }
    let more = u64::from(bytes[first + 8]) & ones(width - seen);
    (word_at(bytes, first) >> shift) + (more << seen)
}

/// The number in the `width` bits from `bit` on, lowest first.
///
/// Bit k of the bytes is bit k % 8 of byte k / 8, where bit 0 of a byte is its lowest.
#[inline]
pub fn read_bits(bytes: &[u8], bit: u64, width: u32) -> u64
    requires wide { width ≤ 64 }
    requires inside { bit + width ≤ 8 * length bytes.now }
    ensures value { result ≡ field bytes.now bit width }
    ensures fits { result < 2 ^ width }
    ensures bits { take width (drop bit (bits_of bytes.now)) ≡ bits width result }
{
    let first = (bit / 8) as usize;
    if width <= 57 && first + 8 <= bytes.len() {
        read_word(bytes, first, (bit % 8) as u32, width)
    } else {
        read_rest(bytes, bit, width)
    }
}

/// The number in the `width` bits from `bit` on, in two's complement; 0 where `width` is 0.
#[inline]
pub fn read_signed(bytes: &[u8], bit: u64, width: u32) -> i64
    requires wide { width ≤ 64 }
    requires inside { bit + width ≤ 8 * length bytes.now }
    ensures value { result ≡ signed width (field bytes.now bit width) }
    ensures fits { need_signed result ≤ width }
    ensures bits { take width (drop bit (bits_of bytes.now)) ≡ bits width (complement width result) }
{
    sign_extended(read_bits(bytes, bit, width), width)
}

/// Whether the bits from `from` up to but not including `to` are all zero.
pub fn all_zero(bytes: &[u8], from: u64, to: u64) -> bool
    requires order { from ≤ to }
    requires inside { to ≤ 8 * length bytes.now }
    ensures { IsTrue result ↔ All (λ b. b ≡ false) (take (to - from) (drop from (bits_of bytes.now))) }
{
    let mut at = from;
    while to - at > 56 {
        if read_bits(bytes, at, 56) != 0 {
            return false;
        }
        at += 56;
    }
    read_bits(bytes, at, (to - at) as u32) == 0
}
