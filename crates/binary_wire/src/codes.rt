//! Type codes and what they stand for.

ghost use Rattle.std.specs.Prelude.{◌≡◌, ◌<◌, length, IfOk};
ghost use Rattle.exact_reading.specs.Reading.{Meets, one};
ghost use Rattle.binary_wire.specs.BinaryCodes.{binary_kind as kind_for, binary_code as code_for};

use compact_wire::Kind;
use exact_reading::Stop;

/// The kind of a type code of Binary Protocol.
#[tactic(auto, unfolding(crate::specs::BinaryCodes::binary_kind))]
#[inline]
pub fn binary_kind(code: u8) -> Option<Kind>
    ensures { result ≡ kind_for code }
{
    match code {
        2 => Some(Kind::Flag),
        3 => Some(Kind::I8),
        4 => Some(Kind::Double),
        6 => Some(Kind::I16),
        8 => Some(Kind::I32),
        10 => Some(Kind::I64),
        11 => Some(Kind::Binary),
        12 => Some(Kind::Struct),
        13 => Some(Kind::Map),
        14 => Some(Kind::Set),
        15 => Some(Kind::List),
        _ => None,
    }
}

/// The type code of a kind in Binary Protocol.
#[inline]
pub fn binary_code(kind: Kind) -> u8
    ensures { result ≡ code_for kind }
{
    match kind {
        Kind::Flag => 2,
        Kind::I8 => 3,
        Kind::Double => 4,
        Kind::I16 => 6,
        Kind::I32 => 8,
        Kind::I64 => 10,
        Kind::Binary => 11,
        Kind::Struct => 12,
        Kind::Map => 13,
        Kind::Set => 14,
        Kind::List => 15,
    }
}

/// The kind of the items of a list or a set, or of the keys or the values of a map, by its code.
#[inline]
pub fn read_code(bytes: &[u8]) -> Result<(Kind, &[u8]), Stop>
    ensures reads { Meets (λ x. (x.0, x.1.now)) result (one kind_for bytes.now) }
    ensures shorter { IfOk result (λ x. length x.1.now < length bytes.now) }
{
    let Some((first, rest)) = bytes.split_first() else {
        return Err(Stop::Ended);
    };
    match binary_kind(*first) {
        Some(kind) => Ok((kind, rest)),
        None => Err(Stop::Refused(bytes.len())),
    }
}
