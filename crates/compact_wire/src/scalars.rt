//! Values that are no containers.

ghost use Rattle.std.specs.Prelude.{◌≡◌, ◌<◌, ◌≤◌, length, IfOk};
ghost use Rattle.exact_reading.specs.Reading.{Gives, Meets, taken};
ghost use Rattle.compact_wire.specs.Reads.{scalar, element_flag, signed_byte};
ghost use Rattle.compact_wire.specs.View.{view};

use crate::kind::Kind;
use crate::numbers::{read_i16, read_i32, read_i64, read_number};
use crate::wire::Wire;
use exact_reading::{ReadError, Stop};
use std::alloc::Global;

/// The first so many bytes, and the others.
#[tactic(auto, unfolding(exact_reading::specs::Reading::taken))]
#[inline(always)]
pub fn read_taken(count: usize, bytes: &[u8]) -> Result<(&[u8], &[u8]), Stop>
    ensures reads { Meets (λ x. (x.0.now, x.1.now)) result (taken count bytes.now) }
    ensures shorter { IfOk result (λ x. length x.1.now ≤ length bytes.now) }
{
    if bytes.len() < count {
        return Err(Stop::Ended);
    }
    Ok(bytes.split_at(count))
}

/// The first eight bytes, and the others.
#[tactic(auto, unfolding(exact_reading::specs::Reading::taken))]
#[inline]
pub fn read_eight(bytes: &[u8]) -> Result<([u8; 8], &[u8]), Stop>
    ensures reads { Meets (λ x. (x.0, x.1.now)) result (taken 8 bytes.now) }
    ensures shorter { IfOk result (λ x. length x.1.now < length bytes.now) }
{
    match bytes.split_first_chunk::<8>() {
        Some((x, rest)) => Ok((*x, rest)),
        None => Err(Stop::Ended),
    }
}

/// A value of a kind that is no container, and the bytes after it.
#[tactic(auto, unfolding(crate::specs::Reads::scalar, crate::specs::Reads::element_flag, crate::specs::Reads::signed_byte))]
pub fn read_scalar(
    alloc: Global,
    kind: Kind,
    bytes: &[u8],
) -> Result<(Wire, &[u8]), ReadError<Stop>>
    ensures { Gives (λ x. (view x.0, x.1.now)) result (scalar kind bytes.now) }
{
    match kind {
        Kind::Flag => {
            let Some((first, rest)) = bytes.split_first() else {
                return Err(ReadError::ended());
            };
            match *first {
                1 => Ok((Wire::Flag(true), rest)),
                0 | 2 => Ok((Wire::Flag(false), rest)),
                _ => Err(ReadError::refused(bytes.len())),
            }
        }
        Kind::I8 => {
            let Some((first, rest)) = bytes.split_first() else {
                return Err(ReadError::ended());
            };
            Ok((Wire::I8(i8::from_le_bytes([*first])), rest))
        }
        Kind::I16 => {
            let (n, rest) = read_i16(bytes)?;
            Ok((Wire::I16(n), rest))
        }
        Kind::I32 => {
            let (n, rest) = read_i32(bytes)?;
            Ok((Wire::I32(n), rest))
        }
        Kind::I64 => {
            let (n, rest) = read_i64(bytes)?;
            Ok((Wire::I64(n), rest))
        }
        Kind::Double => {
            let (x, rest) = read_eight(bytes)?;
            Ok((Wire::Double(x), rest))
        }
        Kind::Binary => {
            let (n, rest) = read_number(4, 0x7fff_ffff, bytes)?;
            let (x, rest) = read_taken(n as usize, rest)?;
            Ok((Wire::Binary(Vec::from_slice(alloc, x)?), rest))
        }
        Kind::List | Kind::Set | Kind::Map | Kind::Struct => Err(ReadError::ended()),
    }
}
