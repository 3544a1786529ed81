//! A whole struct.

ghost use Rattle.std.specs.Prelude.{◌≡◌, ◌-◌};
ghost use Rattle.binary_wire.specs.BinaryAnswers.{IsTranscoded, IsOnlyTranscoded, IsBinaryAnswer, IsOnlyBinaryAnswer};
ghost use Rattle.binary_wire.specs.BinaryAnswers.{as_node, as_bytes};

use crate::transcoding::push_value;
use compact_wire::{Kind, Wire, WireFault, read_wire};
use exact_reading::{ReadError, Stop};
use std::alloc::Global;

/// The canonical spelling in Compact Protocol of the struct that the bytes spell in Binary Protocol, all of them. The
/// bytes are passed over once, and no tree is made. Places in faults are numbers of bytes of Binary Protocol.
pub fn transcode(alloc: Global, bytes: &[u8]) -> Result<Vec<u8>, WireFault>
    // Each answer has its cause.
    ensures cause { IsTranscoded bytes.now (as_bytes result) }
    // Where the cause of an answer holds, it is the answer, unless memory runs out.
    ensures only { IsOnlyTranscoded bytes.now (as_bytes result) }
{
    let Ok(mut out) = Vec::with_capacity(alloc, bytes.len()) else {
        return Err(WireFault::NoMemory);
    };
    match push_value(&mut out, 64, Kind::Struct, bytes) {
        Ok(rest) => {
            if rest.is_empty() {
                Ok(out)
            } else {
                Err(WireFault::Trailing(place(bytes.len(), rest.len())))
            }
        }
        Err(ReadError::NoMemory) => Err(WireFault::NoMemory),
        Err(ReadError::Stop(Stop::Ended)) => Err(WireFault::Truncated),
        Err(ReadError::Stop(Stop::Refused(left))) => {
            Err(WireFault::Malformed(place(bytes.len(), left)))
        }
    }
}

/// The struct that the bytes spell in Binary Protocol, all of them, as a tree of the wire.
pub fn read_binary(alloc: Global, bytes: &[u8]) -> Result<Wire, WireFault>
    // Each answer has its cause.
    ensures cause { IsBinaryAnswer bytes.now (as_node result) }
    // Where the cause of an answer holds, it is the answer, unless memory runs out.
    ensures only { IsOnlyBinaryAnswer bytes.now (as_node result) }
{
    match transcode(alloc, bytes) {
        // What is transcoded is read without a fault.
        Ok(compact) => match read_wire(alloc, compact.as_slice()) {
            Ok(wire) => Ok(wire),
            Err(_) => Err(WireFault::NoMemory),
        },
        Err(fault) => Err(fault),
    }
}

fn place(len: usize, left: usize) -> u64
    ensures { result ≡ len - left }
{
    len.saturating_sub(left) as u64
}
