//! The values of numbers.
ghost use Rattle.std.specs.Prelude.{◌≡◌, ℕ, ◌+◌, ◌-◌, ◌^◌, ◌≤◌, ◌<◌, min, length};
ghost use Rattle.idl_tokens.specs.Numbers.{digit_value as digit_value_of, value as value_in, hex_len as hex_len_of, magnitude as magnitude_of, in_64_bits as in_64_bits_of};

use crate::characters::{digits_len, hex_digits_len, is_digit};

/// The length of a number without its sign, 0 where there is none, and its value, or 2^64 - 1 where that is greater.
#[derive(Clone, Copy, Debug)]
pub struct Magnitude {
    pub len: usize,
    pub value: u64,
}

// The value of a hexadecimal digit.
fn digit_value(c: u8) -> u8
    ensures { result ≡ digit_value_of c }
{
    if is_digit(c) {
        c - b'0'
    } else if b'a' <= c {
        c - 87
    } else {
        c.saturating_sub(55)
    }
}

// The value of the digits in this base, or 2^64 - 1 where that is greater.
fn value_of(base: u64, digits: &[u8]) -> u64
    requires { 1 ≤ base }
    ensures { result ≡ min (value_in base digits.now) (2 ^ 64 - 1) }
{
    let mut n: u64 = 0;
    for c in digits {
        n = n
            .saturating_mul(base)
            .saturating_add(u64::from(digit_value(*c)));
    }
    n
}

// The number of hexadecimal digits behind a `0x`.
fn hex_len(text: &[u8]) -> usize
    ensures len { result ≡ hex_len_of text.now }
    ensures fits { 0 < result → result + 2 ≤ length text.now }
{
    let Some((zero, rest)) = text.split_first() else {
        return 0;
    };
    let Some((x, digits)) = rest.split_first() else {
        return 0;
    };
    if *zero == b'0' && *x == b'x' {
        hex_digits_len(digits)
    } else {
        0
    }
}

/// The longest number without a sign that the text begins with.
pub fn read_magnitude(text: &[u8]) -> Magnitude
    ensures len { result.len ≡ (magnitude_of text.now).len }
    ensures value { result.value ≡ min (magnitude_of text.now).value (2 ^ 64 - 1) }
    ensures fits { result.len ≤ length text.now }
{
    let hex = hex_len(text);
    if 0 < hex {
        Magnitude {
            len: hex + 2,
            value: value_of(16, &text[2..2 + hex]),
        }
    } else {
        let digits = digits_len(text);
        Magnitude {
            len: digits,
            value: value_of(10, &text[..digits]),
        }
    }
}

/// The number with this sign and magnitude, if it is one of 64 bits.
pub fn number_of(minus: bool, value: u64) -> Option<i64>
    ensures { (n : ℕ) → value ≡ min n (2 ^ 64 - 1) → result ≡ in_64_bits_of minus n }
{
    if value < 0x8000_0000_0000_0000 {
        if minus {
            Some(-(value as i64))
        } else {
            Some(value as i64)
        }
    } else if minus && value == 0x8000_0000_0000_0000 {
        Some(i64::MIN)
    } else {
        None
    }
}
