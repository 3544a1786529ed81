//! Values that are no containers, each appended in its canonical spelling in Compact Protocol.

ghost use Rattle.std.specs.Prelude.{◌≡◌, ◌++◌, OnOk};
ghost use Rattle.exact_reading.specs.Reading.{Gives, Meets, one, seen};
ghost use Rattle.compact_wire.specs.Node.{flag};
ghost use Rattle.compact_wire.specs.Writes.{canon_field};
ghost use Rattle.binary_wire.specs.BinaryGrammar.{flag_of};
ghost use Rattle.binary_wire.specs.BinaryReads.{scalar};
ghost use Rattle.binary_wire.specs.Appends.{with_value};

use crate::numbers::{read_i16, read_i32, read_i64, read_size};
use compact_wire::{
    FieldBefore, Kind, push_binary, push_field_header, push_number, read_taken, zigzag,
};
use exact_reading::{ReadError, Stop};
use std::alloc::AllocError;

/// A bool: a byte 1 or 0.
#[tactic(auto, unfolding(crate::specs::BinaryGrammar::flag_of))]
#[inline]
pub fn read_flag(bytes: &[u8]) -> Result<(bool, &[u8]), Stop>
    ensures { Meets (λ x. (x.0, x.1.now)) result (one flag_of bytes.now) }
{
    let Some((first, rest)) = bytes.split_first() else {
        return Err(Stop::Ended);
    };
    match *first {
        1 => Ok((true, rest)),
        0 => Ok((false, rest)),
        _ => Err(Stop::Refused(bytes.len())),
    }
}

/// Appends a field that is a flag, which stands in the header, behind the field of the id before.
pub fn push_flag_field(
    out: &mut Vec<u8>,
    before: FieldBefore,
    id: i16,
    x: bool,
) -> Result<(), AllocError>
    ensures { OnOk result (out.new.items ≡ out.old.items ++ canon_field before.id id (flag x)) }
{
    if x {
        push_field_header(out, before, id, 1)
    } else {
        push_field_header(out, before, id, 2)
    }
}

/// A value of a kind that is no container, and the bytes after it.
#[tactic(auto, unfolding(crate::specs::BinaryReads::scalar, compact_wire::specs::Reads::signed_byte, exact_reading::specs::Reading::taken))]
pub fn push_scalar<'a>(
    out: &mut Vec<u8>,
    kind: Kind,
    bytes: &'a [u8],
) -> Result<&'a [u8], ReadError<Stop>>
    ensures { Gives (λ x. (out.new.items, x.now)) result (seen (with_value out.old.items) (scalar kind bytes.now)) }
{
    match kind {
        Kind::Flag => {
            let (x, rest) = read_flag(bytes)?;
            out.push(if x { 1 } else { 2 })?;
            Ok(rest)
        }
        Kind::I8 => {
            let Some((first, rest)) = bytes.split_first() else {
                return Err(ReadError::ended());
            };
            out.push(*first)?;
            Ok(rest)
        }
        Kind::I16 => {
            let (x, rest) = read_i16(bytes)?;
            push_number(out, zigzag(i64::from(x)))?;
            Ok(rest)
        }
        Kind::I32 => {
            let (x, rest) = read_i32(bytes)?;
            push_number(out, zigzag(i64::from(x)))?;
            Ok(rest)
        }
        Kind::I64 => {
            let (x, rest) = read_i64(bytes)?;
            push_number(out, zigzag(x))?;
            Ok(rest)
        }
        Kind::Double => {
            let (x, rest) = read_taken(8, bytes)?;
            out.extend_from_slice(x)?;
            Ok(rest)
        }
        Kind::Binary => {
            let (len, rest) = read_size(true, bytes)?;
            let (x, rest) = read_taken(len as usize, rest)?;
            push_binary(out, x)?;
            Ok(rest)
        }
        Kind::List | Kind::Set | Kind::Map | Kind::Struct => Err(ReadError::ended()),
    }
}
