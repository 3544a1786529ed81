//! Events, and the containers that are open while they are given.

ghost use Rattle.std.specs.Prelude.{◌≡◌};
ghost use Rattle.wire_events.specs.Frames.{is_done as is_done_of};

use compact_wire::{FieldType, Kind};

/// One event. A struct gives `Struct`, then for each field `Field` and the events of its value, and then `End`.
/// A list, a set and a map give their header and then the events of their parts, and every other value gives one event.
#[derive(Clone, Copy)]
pub enum WireEvent<'a> {
    Struct,
    Field(i16),
    End,
    Flag(bool),
    I8(i8),
    I16(i16),
    I32(i32),
    I64(i64),
    Double([u8; 8]),
    Binary(&'a [u8]),
    /// The code of the items and how many there are.
    List { code: u8, len: u32 },
    Set { code: u8, len: u32 },
    /// The codes of the keys and of the values, and how many pairs there are.
    Map { key: u8, value: u8, len: u32 },
}

/// What is left of a container that is open.
#[derive(Clone, Copy)]
pub enum Frame {
    Items(Kind, u64),
    Keys(Kind, Kind, u64),
    /// The value of a pair, and so many pairs behind it.
    Values(Kind, Kind, u64),
    /// Fields behind a field of this id.
    Fields(i16),
    FieldValue(i16, FieldType),
}

/// Whether nothing is left of a container; fields have their end to give.
pub fn is_done(frame: Frame) -> bool
    ensures { result ≡ is_done_of frame }
{
    match frame {
        Frame::Items(_, left) => left == 0,
        Frame::Keys(_, _, left) => left == 0,
        Frame::Values(_, _, _) => false,
        Frame::Fields(_) => false,
        Frame::FieldValue(_, _) => false,
    }
}
