//! Why bytes are no schema.

use compact_wire::WireFault;
use thiserror::Error;

/// Why bytes are no schema of a layout: the first of the conditions of docs/FORMAT.md that fails.
#[derive(Debug, Drop, Error)]
pub enum SchemaFault {
    /// The bytes are not one Compact struct. Want of memory is never in it.
    #[error("the schema is no struct: {0}")]
    Spelling(WireFault),
    /// The node of this number has a fault as a part of a `Schema`.
    #[error("the schema has a fault at node {0}")]
    Fields(u64),
    /// The version is neither 1 nor 2.
    #[error("version {0}")]
    Version(i32),
    /// The layout of this number has a fault.
    #[error("layout {0} has a fault")]
    Shape(i32),
    #[error("out of memory")]
    NoMemory,
}
