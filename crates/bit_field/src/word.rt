//! Fields within one word of eight bytes.

ghost use Rattle.std.specs.Prelude.{◌≡◌, ◌+◌, ◌-◌, ◌*◌, ◌^◌, ◌%◌, ◌<◌, ◌≤◌, length, drop};
ghost use Rattle.frozen_model.specs.Bits.{number, field, signed};
ghost use Rattle.frozen_model.specs.BitLaws.{IsBytes};
ghost use Rattle.bit_field.specs.Words.{Replaces};

use byteorder::{ByteOrder, LittleEndian};

/// The number with `width` ones as its binary digits.
#[inline(always)]
pub fn ones(width: u32) -> u64
    requires { width ≤ 64 }
    ensures { result ≡ 2 ^ width - 1 }
{
    if width < 64 {
        (1 << width) - 1
    } else {
        u64::MAX
    }
}

/// The number that `width` bits mean in two's complement. It has no branch, since a sign is hard to predict.
#[inline(always)]
pub fn sign_extended(x: u64, width: u32) -> i64
    requires wide { width ≤ 64 }
    requires fits { x < 2 ^ width }
    ensures { result ≡ signed width x }
{
    let mask = ones(width);
    let sign = if x <= mask >> 1 { 0 } else { u64::MAX - mask };
    (x + sign).cast_signed()
}

/// The eight bytes from a byte on, as one number.
#[inline(always)]
pub fn word_at(bytes: &[u8], first: usize) -> u64
    requires { first + 8 ≤ length bytes.now }
    ensures word { result ≡ number (drop first bytes.now) % 2 ^ 64 }
    ensures bytes { IsBytes bytes.now }
{
    LittleEndian::read_u64(&bytes[first..])
}

/// The field that begins `shift` bits into the eight bytes from a byte on.
#[inline(always)]
pub fn read_word(bytes: &[u8], first: usize, shift: u32, width: u32) -> u64
    requires room { first + 8 ≤ length bytes.now }
    requires inner { shift < 64 }
    requires inside { shift + width ≤ 64 }
    ensures { result ≡ field bytes.now (8 * first + shift) width }
{
    (word_at(bytes, first) >> shift) & ones(width)
}

/// Writes the field that begins `shift` bits into the eight bytes from a byte on.
#[inline(always)]
pub fn write_word(bytes: &mut [u8], first: usize, shift: u32, width: u32, x: u64)
    requires room { first + 8 ≤ length bytes.old }
    requires inner { shift < 64 }
    requires inside { shift + width ≤ 64 }
    requires fits { x < 2 ^ width }
    ensures { Replaces bytes.old bytes.new (8 * first + shift) width x }
{
    let others = word_at(bytes, first) & !(ones(width) << shift);
    LittleEndian::write_u64(&mut bytes[first..], others + (x << shift));
}
