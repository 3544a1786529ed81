//! How many bits a number needs.

ghost use Rattle.std.specs.Prelude.{◌≡◌, ◌≤◌};
ghost use Rattle.frozen_model.specs.Bits.{need_unsigned as bits_unsigned, need_signed as bits_signed};

/// The number of bits that `x` needs as an unsigned number: its binary digits, 0 for 0.
#[inline]
pub fn need_unsigned(x: u64) -> u32
    ensures need { result ≡ bits_unsigned x }
    ensures most { result ≤ 64 }
{
    64 - x.leading_zeros()
}

/// The number of bits that `x` needs in two's complement: 0 for 0, else the least `w` with
/// `-2^(w-1) <= x < 2^(w-1)`.
#[inline]
pub fn need_signed(x: i64) -> u32
    ensures need { result ≡ bits_signed x }
    ensures most { result ≤ 64 }
{
    if x == 0 {
        0
    } else if x > 0 {
        need_unsigned(x as u64) + 1
    } else {
        need_unsigned((-1 - x) as u64) + 1
    }
}
