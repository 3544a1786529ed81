//! A tree, and references to its parts.
ghost use Rattle.std.specs.Prelude.{◌<◌, length};

use crate::pool::Pool;

/// What a value is.
#[derive(Clone, Copy, Debug, PartialEq, Eq)]
pub enum TreeKind {
    Flag,
    Int,
    Text,
    Bytes,
    List,
    Set,
    Map,
    Struct,
    Absent,
    Present,
}

/// One value.
#[derive(Drop)]
pub struct Tree {
    pub(crate) pool: Pool,
    pub(crate) top: u32,
    ghost placed: { top < length pool.nodes.items },
}

/// A part of a tree, which is a value too.
#[derive(Clone, Copy)]
pub struct TreeRef<'a> {
    pub(crate) pool: &'a Pool,
    pub(crate) node: u32,
    ghost placed: { node < length pool.now.nodes.items },
}
