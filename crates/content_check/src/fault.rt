//! What can be wrong with a content.

/// The first condition of a content that fails. Bits and bytes are counted from 0 at the content's beginning.
#[derive(Clone, Copy, Debug, PartialEq, Eq)]
pub enum ContentFault {
    /// A block does not lie in the content.
    Short,
    /// So many bytes are left over behind the last block.
    Long(u64),
    /// The distance at this bit is not the one from its block to where the next block begins.
    Distance { bit: u64, found: u64, wanted: u64 },
    /// This bit, of padding or of an absent value, is not zero.
    Dirty(u64),
    /// The text whose block begins at this byte is not UTF-8.
    BadText(u64),
    /// The key at this bit is not above the one before it.
    KeyOrder(u64),
    /// There are more cells than the limit, 33,554,432.
    TooManyCells,
    /// The number at this bit is outside the range of its kind, which only version 2 can have.
    OutOfRange(u64),
}
