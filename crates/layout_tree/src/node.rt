//! The nodes of layouts.

/// What a node is.
#[derive(Clone, Copy, Debug, PartialEq, Eq)]
pub enum Kind {
    /// A truth value, and the isset of an optional.
    Flag,
    I8,
    I16,
    I32,
    I64,
    Text,
    Bytes,
    List,
    Set,
    Map,
    /// The item of a map, which is a struct of the fields 1, its key, and 2.
    Pair,
    Struct,
    Optional,
    /// A distance or a count.
    Size,
}

// The version of the frozen form.
#[derive(Clone, Copy)]
pub(crate) enum FormVersion {
    First,
    Second,
}

/// A node of a layout.
#[derive(Clone, Copy)]
pub struct NodeSpec {
    pub kind: Kind,
    /// The id of a field. The distance, the count and the item of a range have 1, 2 and 3, the isset and the
    /// value of an optional 1 and 2, a key and its value in a pair 1 and 2, the root 0.
    pub field: i16,
    /// The number of the node that this one is a child of; 0 at the root.
    pub parent: u32,
    /// The inline bits; at a leaf, a distance, a count or an isset its width.
    pub bits: u32,
    /// The width that is noted for the next `settle`; the bits where there are nodes below.
    pub wide: u32,
    /// The bits from the first bit of the parent to the first of this node.
    pub offset: u32,
    /// What is subtracted from a whole number before it is stored; 0 in version 1 and at other nodes.
    pub base: i64,
}
