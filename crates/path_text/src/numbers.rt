//! The numbers of steps.
ghost use Rattle.std.specs.Prelude.{◌≡◌, true, option_map};
ghost use Rattle.std.specs.Str.{all_ascii_digits};
ghost use Rattle.idl_tokens.specs.Numbers.{in_64_bits as in_64_bits_of};
ghost use Rattle.path_text.specs.Reading.{magnitude as magnitude_of, read_digits as read_digits_of, read_int as read_int_of};
ghost use Rattle.path_text.specs.Steps.{int_key};

use crate::pieces::digits_len;

// The value of digits; none where there is no digit or the value is no number of 64 bits.
fn magnitude(digits: &[u8]) -> Option<u64>
    requires { all_ascii_digits digits.now ≡ true }
    ensures { result ≡ magnitude_of digits.now }
{
    match str::from_utf8(digits) {
        Ok(text) => text.parse().ok(),
        Err(_) => None,
    }
}

/// The number without a sign that a text begins with, below 2^64, and what is behind it.
pub fn read_digits(text: &[u8]) -> Option<(u64, &[u8])>
    ensures { option_map (λ x. (x.0, x.1.now)) result ≡ read_digits_of text.now }
{
    let (digits, behind) = text.split_at(digits_len(text));
    Some((magnitude(digits)?, behind))
}

// The number of this sign and magnitude, if it is one of 64 bits.
fn in_64_bits(minus: bool, magnitude: u64) -> Option<i64>
    ensures { result ≡ in_64_bits_of minus magnitude }
{
    if minus {
        0_i64.checked_sub_unsigned(magnitude)
    } else {
        i64::try_from(magnitude).ok()
    }
}

/// The number of 64 bits with a sign that a text begins with, and what is behind it. A `-` may stand in front,
/// and no `+`.
pub fn read_int(text: &[u8]) -> Option<(i64, &[u8])>
    ensures { option_map (λ x. (int_key x.0, x.1.now)) result ≡ read_int_of text.now }
{
    let (minus, unsigned) = match text {
        [b'-', unsigned @ ..] => (true, unsigned),
        _ => (false, text),
    };
    let (magnitude, behind) = read_digits(unsigned)?;
    Some((in_64_bits(minus, magnitude)?, behind))
}
