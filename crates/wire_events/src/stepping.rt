//! One event of what is left of an open container.

ghost use Rattle.std.specs.Prelude.{◌≡◌, ◌++◌, ℕ, List, false, Ok};
ghost use Rattle.compact_wire.specs.Node.{Node};
ghost use Rattle.compact_wire.specs.Reads.{value};
ghost use Rattle.wire_events.specs.declared.frame.Frame.{Frame};
ghost use Rattle.wire_events.specs.Events.{Event, events};
ghost use Rattle.wire_events.specs.Frames.{IsLeft, is_done};
ghost use Rattle.wire_events.specs.Steps.{Steps};

use crate::frame::{Frame, WireEvent};
use crate::opening::open_value;
use compact_wire::{FieldBefore, FieldType, Kind, read_field_start};
use exact_reading::Stop;

/// An event, what is left of the container that gave it, the container that it opens, and the bytes behind it.
#[derive(Clone, Copy)]
pub struct Step<'a> {
    pub event: WireEvent<'a>,
    pub keep: Option<Frame>,
    pub opened: Option<Frame>,
    pub rest: &'a [u8],
}

/// The first event of a value, where this is left of its container behind it.
fn value_step(levels: u32, kind: Kind, keep: Frame, bytes: &[u8]) -> Result<Step<'_>, Stop>
    ensures { (x : Node) (es outs : List Event) (mid end : List ℕ)
        → value levels kind bytes.now ≡ Ok (x, mid) → es ≡ events x ++ outs
        → IsLeft levels keep outs mid end → Steps levels es bytes.now end result }
{
    let (event, opened, rest) = open_value(levels, kind, bytes)?;
    let keep = Some(keep);
    Ok(Step {
        event,
        keep,
        opened,
        rest,
    })
}

/// The next event of a container that has one.
pub fn next_step(levels: u32, frame: Frame, bytes: &[u8]) -> Result<Step<'_>, Stop>
    ensures { (es : List Event) (end : List ℕ) → IsLeft levels frame es bytes.now end
        → is_done frame ≡ false → Steps levels es bytes.now end result }
{
    match frame {
        Frame::Items(kind, left) => {
            if left == 0 {
                return Err(Stop::Ended);
            }
            value_step(levels, kind, Frame::Items(kind, left - 1), bytes)
        }
        Frame::Keys(key, value, left) => {
            if left == 0 {
                return Err(Stop::Ended);
            }
            value_step(levels, key, Frame::Values(key, value, left - 1), bytes)
        }
        Frame::Values(key, value, left) => {
            value_step(levels, value, Frame::Keys(key, value, left), bytes)
        }
        Frame::Fields(id) => field_step(levels, id, bytes),
        Frame::FieldValue(id, field_type) => typed_step(levels, id, field_type, bytes),
    }
}

/// The value of a field.
fn typed_step(levels: u32, id: i16, field_type: FieldType, bytes: &[u8]) -> Result<Step<'_>, Stop>
    ensures { (es : List Event) (end : List ℕ)
        → IsLeft levels (Frame.FieldValue id field_type) es bytes.now end
        → Steps levels es bytes.now end result }
{
    match field_type {
        FieldType::Given(x) => Ok(Step {
            event: WireEvent::Flag(x),
            keep: Some(Frame::Fields(id)),
            opened: None,
            rest: bytes,
        }),
        FieldType::Of(kind) => value_step(levels, kind, Frame::Fields(id), bytes),
    }
}

/// The id of the next field, or the end of the fields.
fn field_step(levels: u32, id: i16, bytes: &[u8]) -> Result<Step<'_>, Stop>
    ensures { (es : List Event) (end : List ℕ) → IsLeft levels (Frame.Fields id) es bytes.now end
        → Steps levels es bytes.now end result }
{
    let before = FieldBefore { id };
    let (start, rest) = read_field_start(levels, before, bytes)?;
    match start {
        None => Ok(Step {
            event: WireEvent::End,
            keep: None,
            opened: None,
            rest,
        }),
        Some((id, field_type)) => Ok(Step {
            event: WireEvent::Field(id),
            keep: Some(Frame::FieldValue(id, field_type)),
            opened: None,
            rest,
        }),
    }
}
