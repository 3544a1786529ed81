//! The first event of a value.

ghost use Rattle.std.specs.Prelude.{◌≡◌, Ok, ℕ, suc, List};
ghost use Rattle.compact_wire.specs.Node.{Node, list, set};
ghost use Rattle.compact_wire.specs.Reads.{scalar, value, sequence, mapping};
ghost use Rattle.exact_reading.specs.Reading.{Meets, seen};
ghost use Rattle.wire_events.specs.Events.{first_event, event_of};
ghost use Rattle.wire_events.specs.Frames.{Opens};

use crate::frame::{Frame, WireEvent};
use compact_wire::{
    Kind, code_of, element_of, read_count, read_eight, read_i16, read_i32, read_i64,
    read_list_header, read_map_header, read_number, read_taken,
};
use exact_reading::Stop;

/// The event of a value of a kind that is no container, and the bytes after it.
#[tactic(auto, unfolding(compact_wire::specs::Reads::scalar, compact_wire::specs::Reads::element_flag, compact_wire::specs::Reads::signed_byte, exact_reading::specs::Reading::taken))]
pub fn scalar_event(kind: Kind, bytes: &[u8]) -> Result<(WireEvent<'_>, &[u8]), Stop>
    ensures { Meets (λ r. (event_of r.0, r.1.now)) result (seen first_event (scalar kind bytes.now)) }
{
    match kind {
        Kind::Flag => {
            let Some((first, rest)) = bytes.split_first() else {
                return Err(Stop::Ended);
            };
            match *first {
                1 => Ok((WireEvent::Flag(true), rest)),
                0 | 2 => Ok((WireEvent::Flag(false), rest)),
                _ => Err(Stop::Refused(bytes.len())),
            }
        }
        Kind::I8 => {
            let Some((first, rest)) = bytes.split_first() else {
                return Err(Stop::Ended);
            };
            Ok((WireEvent::I8(i8::from_le_bytes([*first])), rest))
        }
        Kind::I16 => {
            let (n, rest) = read_i16(bytes)?;
            Ok((WireEvent::I16(n), rest))
        }
        Kind::I32 => {
            let (n, rest) = read_i32(bytes)?;
            Ok((WireEvent::I32(n), rest))
        }
        Kind::I64 => {
            let (n, rest) = read_i64(bytes)?;
            Ok((WireEvent::I64(n), rest))
        }
        Kind::Double => {
            let (x, rest) = read_eight(bytes)?;
            Ok((WireEvent::Double(x), rest))
        }
        Kind::Binary => {
            let (n, rest) = read_number(4, 0x7fff_ffff, bytes)?;
            let (x, rest) = read_taken(n as usize, rest)?;
            Ok((WireEvent::Binary(x), rest))
        }
        Kind::List | Kind::Set | Kind::Map | Kind::Struct => Err(Stop::Ended),
    }
}

/// A list whose items may open so many levels.
fn open_list(levels: u32, bytes: &[u8]) -> Result<(WireEvent<'_>, Option<Frame>, &[u8]), Stop>
    ensures { (x : Node) (rest : List ℕ) → sequence list levels (value levels) bytes.now ≡ Ok (x, rest)
        → Opens (suc levels) x bytes.now rest result }
{
    let (header, rest) = read_list_header(levels, bytes)?;
    let (len, rest) = read_count(levels, header, rest)?;
    let kind = element_of(header);
    let code = code_of(kind);
    Ok((
        WireEvent::List {
            code,
            len: len as u32,
        },
        Some(Frame::Items(kind, len)),
        rest,
    ))
}

/// The same for a set.
fn open_set(levels: u32, bytes: &[u8]) -> Result<(WireEvent<'_>, Option<Frame>, &[u8]), Stop>
    ensures { (x : Node) (rest : List ℕ) → sequence set levels (value levels) bytes.now ≡ Ok (x, rest)
        → Opens (suc levels) x bytes.now rest result }
{
    let (header, rest) = read_list_header(levels, bytes)?;
    let (len, rest) = read_count(levels, header, rest)?;
    let kind = element_of(header);
    let code = code_of(kind);
    Ok((
        WireEvent::Set {
            code,
            len: len as u32,
        },
        Some(Frame::Items(kind, len)),
        rest,
    ))
}

/// A map whose keys and values may open so many levels.
fn open_map(levels: u32, bytes: &[u8]) -> Result<(WireEvent<'_>, Option<Frame>, &[u8]), Stop>
    ensures { (x : Node) (rest : List ℕ) → mapping levels (value levels) bytes.now ≡ Ok (x, rest)
        → Opens (suc levels) x bytes.now rest result }
{
    let (len, rest) = read_number(4, 0x7fff_ffff, bytes)?;
    if len == 0 {
        let event = WireEvent::Map {
            key: 0,
            value: 0,
            len: 0,
        };
        return Ok((event, None, rest));
    }
    let (kinds, rest) = read_map_header(levels, rest)?;
    let key = code_of(kinds.key);
    let value = code_of(kinds.value);
    Ok((
        WireEvent::Map {
            key,
            value,
            len: len as u32,
        },
        Some(Frame::Keys(kinds.key, kinds.value, len)),
        rest,
    ))
}

/// The first event of a value, the container that it opens, and the bytes behind the event.
pub fn open_value(
    levels: u32,
    kind: Kind,
    bytes: &[u8],
) -> Result<(WireEvent<'_>, Option<Frame>, &[u8]), Stop>
    ensures { (x : Node) (rest : List ℕ) → value levels kind bytes.now ≡ Ok (x, rest)
        → Opens levels x bytes.now rest result }
{
    if levels == 0 {
        let (event, rest) = scalar_event(kind, bytes)?;
        return Ok((event, None, rest));
    }
    match kind {
        Kind::List => open_list(levels - 1, bytes),
        Kind::Set => open_set(levels - 1, bytes),
        Kind::Map => open_map(levels - 1, bytes),
        Kind::Struct => Ok((WireEvent::Struct, Some(Frame::Fields(0)), bytes)),
        Kind::Flag | Kind::I8 | Kind::I16 | Kind::I32 | Kind::I64 | Kind::Double | Kind::Binary => {
            let (event, rest) = scalar_event(kind, bytes)?;
            Ok((event, None, rest))
        }
    }
}
