//! Reading a whole struct.

ghost use Rattle.std.specs.Prelude.{◌≡◌, ◌-◌};
ghost use Rattle.compact_wire.specs.WireAnswers.{IsWireAnswer, IsOnlyWireAnswer};

use crate::fault::WireFault;
use crate::kind::Kind;
use crate::reading::read_value;
use crate::wire::Wire;
use exact_reading::{ReadError, Stop};
use std::alloc::Global;

/// The struct that the bytes spell, all of them. Numbers may be overlong within their limits, and headers short
/// or long.
pub fn read_wire(alloc: Global, bytes: &[u8]) -> Result<Wire, WireFault>
    // Each answer has its cause.
    ensures cause { IsWireAnswer bytes.now result }
    // Where the cause of an answer holds, it is the answer, unless memory runs out.
    ensures only { IsOnlyWireAnswer bytes.now result }
{
    match read_value(alloc, 64, Kind::Struct, bytes) {
        Ok((wire, rest)) => {
            if rest.is_empty() {
                Ok(wire)
            } else {
                Err(WireFault::Trailing(place(bytes.len(), rest.len())))
            }
        }
        Err(ReadError::NoMemory) => Err(WireFault::NoMemory),
        Err(ReadError::Stop(Stop::Ended)) => Err(WireFault::Truncated),
        Err(ReadError::Stop(Stop::Refused(left))) => {
            Err(WireFault::Malformed(place(bytes.len(), left)))
        }
    }
}

fn place(len: usize, left: usize) -> u64
    ensures { result ≡ len - left }
{
    len.saturating_sub(left) as u64
}
