//! The nodes of a pool.

use block_region::Block;

/// Links that stand one after another: the place of the first, and how many.
#[derive(Clone, Copy)]
pub struct Run {
    pub first: u32,
    pub count: u32,
}

/// A node. What it has of parts and of bytes stands elsewhere in its pool.
#[derive(Clone, Copy)]
pub enum Spot {
    Flag(bool),
    Int(i64),
    /// Bytes that are UTF-8.
    Text(Block),
    Bytes(Block),
    List(Run),
    Set(Run),
    /// Its keys and values by turns.
    Map(Run),
    /// Its fields by rising id.
    Struct(Run),
    Absent,
    /// The number of the node that is present.
    Present(u32),
}

/// A part of a node: its id, which counts in a struct alone, and its number.
#[derive(Clone, Copy)]
pub struct Link {
    pub id: u16,
    pub node: u32,
}
