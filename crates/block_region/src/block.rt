//! The part of a region that one `take` handed out.

use std::marker::Model;

/// A block of a region. `Region::take` alone makes one.
#[derive(Clone, Copy)]
pub struct Block {
    start: usize,
    len: usize,
}

impl Model for Block {
    ghost use Rattle.block_region.specs.Space.{Span, span_code};

    ghost Value = { Span };

    ghost coded = { span_code };

    ghost view = { λ b. record { start = b.start; len = b.len } };

    ghost inverse = { λ s. record { start = s.start; len = s.len } };
}

impl Block {
    ghost use Rattle.std.specs.Prelude.{◌≡◌, ◌↔◌, IsTrue};

    #[inline]
    pub(crate) fn new(start: usize, len: usize) -> Block
        ensures { result ≡ record { start = start; len = len } }
    {
        Block { start, len }
    }

    /// The region's byte that the block begins with.
    #[inline]
    pub fn start(&self) -> usize
        ensures { result ≡ self.now.start }
    {
        self.start
    }

    /// The block's length in bytes.
    #[inline]
    pub fn len(&self) -> usize
        ensures { result ≡ self.now.len }
    {
        self.len
    }

    /// Whether the block has no bytes.
    #[inline]
    pub fn is_empty(&self) -> bool
        ensures { IsTrue result ↔ (self.now.len ≡ 0) }
    {
        self.len == 0
    }
}
