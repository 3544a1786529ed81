//! The front of a file.

ghost use Rattle.std.specs.Prelude.{◌≡◌, ◌++◌};
ghost use Rattle.frozen_model.specs.Files.{magic, four_bytes};

use byteorder::{ByteOrder, LittleEndian};

/// The first eight bytes of a file whose schema has so many bytes: `FZ2P`, and the number with its lowest
/// byte first. It takes no memory.
pub fn header(schema_len: u32) -> [u8; 8]
    ensures { result ≡ magic ++ four_bytes schema_len }
{
    let mut header = *b"FZ2P\0\0\0\0";
    LittleEndian::write_u32(&mut header[4..], schema_len);
    header
}
