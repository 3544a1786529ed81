//! Numbers: of a fixed number of bytes, the highest first.

ghost use Rattle.std.specs.Prelude.{◌≡◌, ◌<◌, ◌≤◌, ◌&&◌, length, IfOk};
ghost use Rattle.std.specs.Int.{w16, w32, w64};
ghost use Rattle.exact_reading.specs.Reading.{Meets, one};
ghost use Rattle.compact_wire.specs.Reads.{fits as fits_at};
ghost use Rattle.binary_wire.specs.BinaryReads.{up_to, size, signed, field_code as field_code_at, field_start as field_start_at};

use crate::codes::binary_kind;
use byteorder::{BigEndian, ByteOrder};
use compact_wire::{Kind, fits};
use exact_reading::Stop;

/// A byte up to `most`.
#[tactic(auto, unfolding(crate::specs::BinaryReads::up_to))]
#[inline]
fn read_up_to(most: u8, bytes: &[u8]) -> Result<(u8, &[u8]), Stop>
    ensures reads { Meets (λ x. (x.0, x.1.now)) result (one (up_to most) bytes.now) }
    ensures shorter { IfOk result (λ x. length x.1.now < length bytes.now) }
{
    let Some((first, rest)) = bytes.split_first() else {
        return Err(Stop::Ended);
    };
    if *first <= most {
        Ok((*first, rest))
    } else {
        Err(Stop::Refused(bytes.len()))
    }
}

/// A length or a size: four bytes, and none that is negative. Where what is counted does not fit, only 0.
#[tactic(auto, unfolding(crate::specs::BinaryReads::size))]
#[inline]
pub fn read_size(fit: bool, bytes: &[u8]) -> Result<(u32, &[u8]), Stop>
    ensures reads { Meets (λ x. (x.0, x.1.now)) result (size fit bytes.now) }
    ensures shorter { IfOk result (λ x. length x.1.now < length bytes.now) }
{
    let highest = if fit { 127 } else { 0 };
    let lower = if fit { 255 } else { 0 };
    let (a, rest) = read_up_to(highest, bytes)?;
    let (b, rest) = read_up_to(lower, rest)?;
    let (c, rest) = read_up_to(lower, rest)?;
    let (d, rest) = read_up_to(lower, rest)?;
    Ok((BigEndian::read_u32(&[a, b, c, d]), rest))
}

/// Whether keys and values of these kinds may stand where so many levels may still open.
#[inline]
pub fn both_fit(levels: u32, key: Kind, value: Kind) -> bool
    ensures { result ≡ (fits_at levels key && fits_at levels value) }
{
    fits(levels, key) && fits(levels, value)
}

/// An `i16` in 2 bytes.
#[tactic(auto, unfolding(exact_reading::specs::Reading::taken))]
#[inline]
pub fn read_i16(bytes: &[u8]) -> Result<(i16, &[u8]), Stop>
    ensures reads { Meets (λ x. (x.0, x.1.now)) result (signed w16 2 bytes.now) }
{
    match bytes.split_first_chunk::<2>() {
        Some((number, rest)) => Ok((BigEndian::read_i16(number), rest)),
        None => Err(Stop::Ended),
    }
}

/// An `i32` in 4 bytes.
#[tactic(auto, unfolding(exact_reading::specs::Reading::taken))]
#[inline]
pub fn read_i32(bytes: &[u8]) -> Result<(i32, &[u8]), Stop>
    ensures reads { Meets (λ x. (x.0, x.1.now)) result (signed w32 4 bytes.now) }
{
    match bytes.split_first_chunk::<4>() {
        Some((number, rest)) => Ok((BigEndian::read_i32(number), rest)),
        None => Err(Stop::Ended),
    }
}

/// An `i64` in 8 bytes.
#[tactic(auto, unfolding(exact_reading::specs::Reading::taken))]
#[inline]
pub fn read_i64(bytes: &[u8]) -> Result<(i64, &[u8]), Stop>
    ensures reads { Meets (λ x. (x.0, x.1.now)) result (signed w64 8 bytes.now) }
{
    match bytes.split_first_chunk::<8>() {
        Some((number, rest)) => Ok((BigEndian::read_i64(number), rest)),
        None => Err(Stop::Ended),
    }
}

/// What the first byte of a field says: the kind of its value, where so many levels may still open, or that no
/// field is left.
#[tactic(auto, unfolding(crate::specs::BinaryReads::field_code))]
#[inline]
fn field_code(levels: u32, byte: u8) -> Option<Option<Kind>>
    ensures { result ≡ field_code_at levels byte }
{
    if byte == 0 {
        return Some(None);
    }
    let kind = binary_kind(byte)?;
    if fits(levels, kind) {
        Some(Some(kind))
    } else {
        None
    }
}

/// The kind and the id of the next field, or the end of the fields.
#[tactic(auto, unfolding(crate::specs::BinaryReads::field_start))]
#[inline]
pub fn read_field_start(levels: u32, bytes: &[u8]) -> Result<(Option<(Kind, i16)>, &[u8]), Stop>
    ensures reads { Meets (λ x. (x.0, x.1.now)) result (field_start_at levels bytes.now) }
{
    let Some((first, rest)) = bytes.split_first() else {
        return Err(Stop::Ended);
    };
    match field_code(levels, *first) {
        None => Err(Stop::Refused(bytes.len())),
        Some(None) => Ok((None, rest)),
        Some(Some(kind)) => {
            let (id, rest) = read_i16(rest)?;
            Ok((Some((kind, id)), rest))
        }
    }
}
