//! Why bytes are no frozen file.

use layout_schema::SchemaFault;
use thiserror::Error;

/// Why bytes are no frozen file: the first of the conditions of docs/FORMAT.md that fails. Bits and bytes are
/// counted from 0 at the content's beginning.
#[derive(Debug, Drop, Error)]
pub enum OpenFault {
    /// There are fewer than 8 bytes, or the first four are not `FZ2P`.
    #[error("no frozen file")]
    NotFrozen,
    /// The bytes of the schema are no schema of a layout. Want of memory is never in it.
    #[error("bad schema: {0}")]
    Schema(SchemaFault),
    /// The schema does not lie in the file, or a block of the content does not lie in the content.
    #[error("the file ends too early")]
    Short,
    /// So many bytes are left over behind the last block.
    #[error("{0} bytes are left over")]
    Long(u64),
    /// The distance at this bit is not the one from its block to where the next block begins.
    #[error("distance {found} at bit {bit}, where {wanted} is wanted")]
    Distance { bit: u64, found: u64, wanted: u64 },
    /// This bit, of padding or of an absent value, is not zero.
    #[error("bit {0} is not zero")]
    Dirty(u64),
    /// The text whose block begins at this byte is not UTF-8.
    #[error("the text at byte {0} is not UTF-8")]
    BadText(u64),
    /// The key at this bit is not above the one before it.
    #[error("the key at bit {0} is out of order")]
    KeyOrder(u64),
    /// There are more cells than the limit, 33,554,432.
    #[error("too many cells")]
    TooManyCells,
    /// The number at this bit is outside the range of its kind, which only version 2 can have.
    #[error("the number at bit {0} is out of range")]
    Range(u64),
    #[error("out of memory")]
    NoMemory,
}
