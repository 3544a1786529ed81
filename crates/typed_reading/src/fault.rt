//! What is wrong at a node, and why bytes are no value of a type.

use compact_wire::WireFault;
use thiserror::Error;

/// What is wrong at a node of a wire tree that is read as a type, in the order of the faults at one node.
#[derive(Clone, Copy, Debug)]
pub enum NodeFault {
    /// It is the value of a field whose id stood earlier in the same struct.
    RepeatedField,
    /// It is a struct that lacks a required field; of such fields this is the least id.
    MissingRequired(i16),
    /// It is of another code than its type, or its elements are of others than the type's.
    WrongType,
    /// It is a text, and its bytes are not UTF-8.
    BadText,
    /// It is an item of a set or a key of a map that equals an earlier one.
    RepeatedKey,
}

/// A fault and the number of its node.
#[derive(Clone, Copy, Debug)]
pub struct Found {
    pub node: u64,
    pub fault: NodeFault,
}

/// Why bytes are no value of a type. Nodes are numbered in preorder from 0, as docs/COMPACT.md tells.
#[derive(Debug, Drop, Error)]
pub enum ValueFault {
    /// The bytes spell no struct. It is never `WireFault::NoMemory`.
    #[error("no struct: {0}")]
    Wire(WireFault),
    /// The field's id stood earlier in the same struct.
    #[error("a repeated field at node {node}")]
    RepeatedField { node: u64 },
    /// The struct lacks a required field; of such fields this is the least id.
    #[error("field {field} is missing at node {node}")]
    MissingRequired { node: u64, field: i16 },
    /// The value is of another type, or its elements are.
    #[error("a wrong type at node {node}")]
    WrongType { node: u64 },
    /// The text is not UTF-8.
    #[error("a text that is not UTF-8 at node {node}")]
    BadText { node: u64 },
    /// The item of a set or the key of a map equals an earlier one.
    #[error("a repeated key at node {node}")]
    RepeatedKey { node: u64 },
    /// The value has more cells than the limit, 33,554,432.
    #[error("{cells} cells")]
    TooManyCells { cells: u64 },
    #[error("out of memory")]
    NoMemory,
}
