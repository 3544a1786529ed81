// Reading a whole file, and writing all of some bytes.
ghost use Rattle.std.specs.Prelude.{◌≡◌, ◌+◌, ◌^◌, ◌≤◌, IfOk, IfErr, IfSome, IsErrOf, IsErr, OnOk, OnErr, vec_len};
ghost use Rattle.std.specs.Io.KnownBytes.{Appends};
ghost use Rattle.fz_base.specs.declared.whole.ReadFault.TheVariants.{NoMemory};
ghost use Rattle.fz_base.specs.Counts.{HasCause, MovesOnlyAt, RoseBy, counted};
ghost use Rattle.fz_base.specs.Sink.{AppendsPart};
ghost use Rattle.fz_base.specs.Whole.{IsWhole, RefusesWhole};

use crate::{FileFault, Files, Sink, SinkFault};
use std::alloc::{AllocError, Global};
use thiserror::Error;

/// Why a file was not read whole.
#[derive(Clone, Copy, Debug, PartialEq, Eq, Error)]
pub enum ReadFault {
    /// No file has the name.
    #[error("no file has this name")]
    Missing,
    /// A read failed.
    #[error("a read failed")]
    Failed,
    /// The file is longer than the limit.
    #[error("the file is longer than its limit")]
    TooLarge,
    /// There is not enough memory.
    #[error("out of memory")]
    NoMemory,
}

impl From<AllocError> for ReadFault {
    ghost from_gives = { λ _ e. e ≡ NoMemory };

    fn from(_: AllocError) -> Self {
        ReadFault::NoMemory
    }
}

// How many bytes a read asks for: below 64 KiB the calls cost more than the bytes.
const PIECE: usize = 65_536;

// Room for a piece. Its contents are no one's concern, so no clause speaks of them.
fn piece_buffer(alloc: Global) -> Result<Vec<u8>, AllocError>
    ensures { IfOk result (λ buffer. vec_len buffer ≡ PIECE) }
{
    vec![in alloc; 0; PIECE]
}

/// Reads all of a file that has at most `limit` bytes, in pieces of 64 KiB. It takes at most `limit` + 1 bytes of the
/// file, so it returns for every reader.
pub fn read_whole<F: Files>(
    alloc: Global,
    files: &mut F,
    name: &str,
    limit: u64,
) -> Result<Vec<u8>, ReadFault>
    requires { limit ≤ 2 ^ 40 }
    ensures bytes { IfSome (F.held files.old) (λ held.
        IfOk result (λ bytes. IsWhole (held name.now) limit bytes.items)) }
    ensures refused { IfSome (F.held files.old) (λ held.
        IfErr result (λ fault. RefusesWhole (held name.now) limit fault)) }
    ensures kept { F.held files.new ≡ F.held files.old }
    ensures failed { HasCause (F.faults files.old) (F.faults files.new) (IsErrOf result ReadFault.Failed) }
    ensures missing { HasCause (F.misses files.old) (F.misses files.new) (IsErrOf result ReadFault.Missing) }
    ensures unfailed { MovesOnlyAt (F.faults files.old) (F.faults files.new) (IsErrOf result ReadFault.Failed) }
    ensures unmissed { MovesOnlyAt (F.misses files.old) (F.misses files.new) (IsErrOf result ReadFault.Missing) }
    ensures within { IfOk result (λ bytes. vec_len bytes ≤ limit) }
    ensures given { (F.given files.old ≤ F.given files.new)
        × (F.given files.new ≤ counted (F.given files.old) (limit + 1)) }
    ensures too_large { IsErrOf result ReadFault.TooLarge →
        RoseBy (limit + 1) (F.given files.old) (F.given files.new) }
{
    let mut bytes = Vec::new(alloc);
    let mut storage = piece_buffer(alloc)?;
    let buffer = storage.as_mut_slice();
    'turns: while bytes.len() as u64 <= limit {
        let at = bytes.len();
        let room = (limit as usize + 1 - at).min(buffer.len());
        let piece = &mut buffer[..room];
        let count = match files.read_at(name, at as u64, piece) {
            Ok(count) => count,
            Err(FileFault::Missing) => return Err(ReadFault::Missing),
            Err(FileFault::Failed) => return Err(ReadFault::Failed),
        };
        if count == 0 {
            return Ok(bytes);
        }
        bytes.extend_from_slice(&piece[..count])?;
    }
    Err(ReadFault::TooLarge)
}

/// Writes all the bytes. After a fault a part of them, from the front, is written. Takes no memory.
pub fn write_whole<S: Sink>(sink: &mut S, bytes: &[u8]) -> Result<(), SinkFault>
    ensures written { OnOk result (Appends (S.written sink.old) (S.written sink.new) bytes.now) }
    ensures part { OnErr result (AppendsPart (S.written sink.old) (S.written sink.new) bytes.now) }
    ensures failed { HasCause (S.faults sink.old) (S.faults sink.new) (IsErr result) }
    ensures unfailed { MovesOnlyAt (S.faults sink.old) (S.faults sink.new) (IsErr result) }
{
    let mut done = 0;
    'pieces: while done < bytes.len() {
        let count = sink.write(&bytes[done..])?;
        done += count;
    }
    Ok(())
}
