//! The parts of a file.

ghost use Rattle.file_check.specs.Parts.{IsParted};

use crate::fault::OpenFault;
use byteorder::{ByteOrder, LittleEndian};

// What a file begins with.
const MAGIC: &[u8; 4] = b"FZ2P";

/// The schema and the content of a file, where it begins with a header and the schema lies in it.
pub(crate) fn parts(bytes: &[u8]) -> Result<(&[u8], &[u8]), OpenFault>
    ensures { IsParted bytes.now result }
{
    if bytes.len() < 8 || &bytes[..4] != MAGIC.as_slice() {
        return Err(OpenFault::NotFrozen);
    }
    let schema_len = LittleEndian::read_u32(&bytes[4..]) as usize;
    let rest = &bytes[8..];
    if schema_len > rest.len() {
        return Err(OpenFault::Short);
    }
    Ok(rest.split_at(schema_len))
}
