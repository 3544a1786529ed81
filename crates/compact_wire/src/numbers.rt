//! Numbers: seven bits to a byte, the lowest first, and zigzag for signed ones.

ghost use Rattle.std.specs.Prelude.{◌≡◌, ◌<◌, ◌≤◌, ◌^◌, ◌++◌, ◌-◌, length, IfOk, OnOk, OnErr, vec_len, take};
ghost use Rattle.exact_reading.specs.Reading.{Meets};
ghost use Rattle.compact_wire.specs.Number.{shortest, unzigzag as unzigzag_of, zigzag as zigzag_of};
ghost use Rattle.compact_wire.specs.Reads.{number, signed};

use exact_reading::Stop;
use std::alloc::AllocError;

/// The number that writes `x`: 2x for `x` from 0 up, and -2x - 1 below.
pub fn zigzag(x: i64) -> u64
    ensures { result ≡ zigzag_of x }
{
    if x >= 0 {
        2 * (x as u64)
    } else {
        2 * ((-(x + 1)) as u64) + 1
    }
}

/// The signed number that `x` writes.
#[tactic(auto, unfolding(crate::specs::Number::unzigzag))]
#[inline]
pub fn unzigzag(x: u64) -> i64
    ensures { result ≡ unzigzag_of x }
{
    let half = (x / 2) as i64;
    if x % 2 == 0 { half } else { -half - 1 }
}

/// The same for a number that writes an `i32`.
#[tactic(auto, unfolding(crate::specs::Number::unzigzag))]
#[inline]
pub fn unzigzag_32(x: u64) -> i32
    requires { x < 2 ^ 32 }
    ensures { result ≡ unzigzag_of x }
{
    let half = (x / 2) as i32;
    if x % 2 == 0 { half } else { -half - 1 }
}

/// The same for a number that writes an `i16`.
#[tactic(auto, unfolding(crate::specs::Number::unzigzag))]
#[inline]
fn unzigzag_16(x: u64) -> i16
    requires { x < 2 ^ 16 }
    ensures { result ≡ unzigzag_of x }
{
    let half = (x / 2) as i16;
    if x % 2 == 0 { half } else { -half - 1 }
}

/// Appends the shortest spelling of `x`. After a want of memory `out` holds what it held.
pub fn push_number(out: &mut Vec<u8>, x: u64) -> Result<(), AllocError>
    ensures ok { OnOk result (out.new.items ≡ out.old.items ++ shortest x) }
    ensures err { OnErr result (out.new.items ≡ out.old.items) }
{
    let start = out.len();
    match push_digits(out, x) {
        Ok(()) => Ok(()),
        Err(e) => {
            out.truncate(start);
            Err(e)
        }
    }
}

/// Appends the shortest spelling of `x`, or bytes at its front.
fn push_digits(out: &mut Vec<u8>, x: u64) -> Result<(), AllocError>
    ensures ok { OnOk result (out.new.items ≡ out.old.items ++ shortest x) }
    ensures err { OnErr result (take (vec_len out.old) out.new.items ≡ out.old.items) }
{
    let mut rest = x;
    'digits: while rest >= 128 {
        out.push((rest % 128) as u8 + 128)?;
        rest /= 128;
    }
    out.push(rest as u8)?;
    Ok(())
}

/// A number up to `greatest` in any spelling of at most `room` bytes after the first, and the bytes after it.
#[inline(always)]
pub fn read_number(room: u32, greatest: u64, bytes: &[u8]) -> Result<(u64, &[u8]), Stop>
    ensures reads { Meets (λ x. (x.0, x.1.now)) result (number room greatest bytes.now) }
    ensures bound { IfOk result (λ x. x.0 ≤ greatest) }
    ensures shorter { IfOk result (λ x. length x.1.now < length bytes.now) }
{
    let Some((first, rest)) = bytes.split_first() else {
        return Err(Stop::Ended);
    };
    let first = u64::from(*first);
    if first < 128 && first <= greatest {
        return Ok((first, rest));
    }
    read_digits(room, greatest, bytes)
}

/// The same, a digit at a time. The number is `sum`, and `weight` times the number up to `most` that `rest` begins
/// with.
fn read_digits(room: u32, greatest: u64, bytes: &[u8]) -> Result<(u64, &[u8]), Stop>
    ensures reads { Meets (λ x. (x.0, x.1.now)) result (number room greatest bytes.now) }
    ensures bound { IfOk result (λ x. x.0 ≤ greatest) }
    ensures shorter { IfOk result (λ x. length x.1.now < length bytes.now) }
{
    let mut left = room;
    let mut most = greatest;
    let mut rest = bytes;
    let mut sum = 0;
    let mut weight = 1_u64;
    'digits: while let Some((first, behind)) = rest.split_first() {
        let first = u64::from(*first);
        if first < 128 {
            if first > most {
                return Err(Stop::Refused(rest.len()));
            }
            return Ok((sum + weight * first, behind));
        }
        let low = first - 128;
        if left == 0 || low > most {
            return Err(Stop::Refused(rest.len()));
        }
        sum += weight * low;
        // It wraps only where no digit but 0 may follow.
        weight = weight.wrapping_mul(128);
        most = (most - low) / 128;
        left -= 1;
        rest = behind;
    }
    Err(Stop::Ended)
}

/// An `i16` in at most 3 bytes.
#[inline]
pub fn read_i16(bytes: &[u8]) -> Result<(i16, &[u8]), Stop>
    ensures reads { Meets (λ x. (x.0, x.1.now)) result (signed 2 (2 ^ 16 - 1) bytes.now) }
    ensures shorter { IfOk result (λ x. length x.1.now < length bytes.now) }
{
    let (n, rest) = read_number(2, 0xffff, bytes)?;
    Ok((unzigzag_16(n), rest))
}

/// An `i32` in at most 5 bytes.
#[inline]
pub fn read_i32(bytes: &[u8]) -> Result<(i32, &[u8]), Stop>
    ensures reads { Meets (λ x. (x.0, x.1.now)) result (signed 4 (2 ^ 32 - 1) bytes.now) }
    ensures shorter { IfOk result (λ x. length x.1.now < length bytes.now) }
{
    let (n, rest) = read_number(4, 0xffff_ffff, bytes)?;
    Ok((unzigzag_32(n), rest))
}

/// An `i64` in at most 10 bytes.
#[inline]
pub fn read_i64(bytes: &[u8]) -> Result<(i64, &[u8]), Stop>
    ensures reads { Meets (λ x. (x.0, x.1.now)) result (signed 9 (2 ^ 64 - 1) bytes.now) }
    ensures shorter { IfOk result (λ x. length x.1.now < length bytes.now) }
{
    let (n, rest) = read_number(9, 0xffff_ffff_ffff_ffff, bytes)?;
    Ok((unzigzag(n), rest))
}
