//! Why bytes are no struct.

use thiserror::Error;

/// Why bytes are no struct of the wire. Places are numbers of bytes from the beginning.
#[derive(Debug, Drop, Error)]
pub enum WireFault {
    /// The bytes end within a struct.
    #[error("the bytes end too early")]
    Truncated,
    /// The byte at this place can't stand there.
    #[error("malformed at byte {0}")]
    Malformed(u64),
    /// The struct ends at this place, and more bytes follow.
    #[error("bytes follow the struct, from byte {0} on")]
    Trailing(u64),
    #[error("out of memory")]
    NoMemory,
}
