//! The reservation, and the blocks that it hands out.

ghost use Rattle.std.specs.Prelude.{◌≡◌, ◌↔◌, ℕ, ◌+◌, ◌-◌, ◌≤◌, ◌<◌, slice_index, IsSome, IfSome, IsOk, IfOk, MatchOption, length, replicate, ◌++◌, vec_capacity};
ghost use Rattle.std.specs.Borrow.{sem};
ghost use Rattle.block_region.specs.Space.{IsRegion, IsTaken, block_bytes, handed_out, in_use, written, grown};
ghost use Rattle.block_region.specs.Lending.{LendsBlock};
ghost use Rattle.block_region.specs.Laws.{WritesAlone};

use crate::block::Block;
use std::alloc::{AllocError, Global};
use std::marker::Model;
use std_alloc::vec::run_mut;

// What new bytes are copied from.
static ZEROS: [u8; 256] = [0; 256];

// Appends so many zeros, for which there is room.
#[inline]
fn append_zeros(bytes: &mut Vec<u8>, len: usize)
    requires { length bytes.now.items + len ≤ vec_capacity bytes.now }
    ensures items { bytes.new.items ≡ bytes.old.items ++ replicate len 0 }
    ensures capacity { vec_capacity bytes.old ≤ vec_capacity bytes.new }
{
    let mut left = len;
    while left > ZEROS.len() {
        bytes.extend_from_slice(&ZEROS).unwrap();
        left -= ZEROS.len();
    }
    bytes.extend_from_slice(&ZEROS[..left]).unwrap();
}

/// Memory that is taken once and handed out in blocks, the first bytes first. What is not yet handed out is zero.
#[derive(Drop)]
pub struct Region {
    /// The part that is handed out, with room for all of the region.
    bytes: Vec<u8>,
    size: usize,
}

impl Model for Region {
    ghost use Rattle.std.specs.Prelude.{◌≤◌, length, vec_capacity};
    ghost use Rattle.block_region.specs.Space.{Space, space_of, space_code};

    ghost Value = { Space };

    ghost coded = { space_code };

    ghost view = { λ r. space_of r.bytes.items r.size };

    ghost invariant = { λ r. (length r.bytes.items ≤ r.size) × (r.size ≤ vec_capacity r.bytes) };
}

impl Region {
    /// Takes the memory of a region of `len` bytes, all zero. No call but this and `grown` takes memory.
    pub fn reserve(alloc: Global, len: usize) -> Result<Region, AllocError>
        ensures blank { IfOk result (λ r. r ≡ record { bytes = replicate len 0; taken = 0 }) }
        ensures succeeds { len ≡ 0 → IsOk result }
    {
        let bytes = Vec::with_capacity(alloc, len)?;
        Ok(Region { bytes, size: len })
    }

    /// Takes the memory of a region of `len` bytes in which the same bytes are handed out as here. So each block of
    /// this region is one of the new region too, with the same bytes.
    pub fn grown(&self, alloc: Global, len: usize) -> Result<Region, AllocError>
        requires { self.now.taken ≤ len }
        ensures { IfOk result (λ r. r ≡ grown self.now len) }
    {
        let mut bytes = Vec::with_capacity(alloc, len)?;
        bytes.extend_from_slice(&self.bytes)?;
        Ok(Region { bytes, size: len })
    }

    /// Hands out the next `len` bytes, which are zero. `None` comes where fewer are left, and then nothing changes.
    #[inline]
    pub fn take(&mut self, len: usize) -> Option<Block>
        ensures enough { IsSome result ↔ (self.old.taken + len ≤ length self.old.bytes) }
        ensures block { IfSome result (λ b. b ≡ record { start = self.old.taken; len = len }) }
        ensures after { MatchOption result (self.new ≡ self.old) (λ b. self.new ≡ handed_out self.old b) }
        ensures zero { IfSome result (λ b. block_bytes self.new b ≡ replicate len 0) }
        ensures region { IsRegion self.new }
    {
        if len > self.size - self.bytes.len() {
            return None;
        }
        let start = self.bytes.len();
        append_zeros(&mut self.bytes, len);
        Some(Block::new(start, len))
    }

    /// Hands out as many bytes as `from` has, and writes it there. `None` comes where fewer are left, and then nothing
    /// changes.
    #[inline]
    pub fn append(&mut self, from: &[u8]) -> Option<Block>
        ensures enough { IsSome result ↔ (self.old.taken + length from.now ≤ length self.old.bytes) }
        ensures block { IfSome result (λ b. b ≡ record { start = self.old.taken; len = length from.now }) }
        ensures after { MatchOption result (self.new ≡ self.old)
            (λ b. self.new ≡ written (handed_out self.old b) b from.now) }
        ensures alone { IfSome result (λ b. WritesAlone (handed_out self.old b) b from.now) }
        ensures region { IsRegion self.new }
    {
        if from.len() > self.size - self.bytes.len() {
            return None;
        }
        let start = self.bytes.len();
        self.bytes.extend_from_slice(from).unwrap();
        Some(Block::new(start, from.len()))
    }

    /// The block's bytes, for writing. All other bytes stay.
    #[inline]
    pub fn lend(&mut self, block: &Block) -> &mut [u8]
        requires { IsTaken self.old block.now }
        ensures* writes_back { sem 𝓛 (LendsBlock self.entry block.now result) }
        ensures value { result.now ≡ block_bytes self.old block.now }
        ensures len { length result.now ≡ block.now.len }
        ensures region { IsRegion self.old }
    {
        let bytes = &mut self.bytes;
        let start = block.start();
        run_mut(bytes, start, start + block.len())
    }

    /// Writes `from` over the block's bytes. All other bytes stay.
    #[inline]
    pub fn copy(&mut self, block: &Block, from: &[u8])
        requires taken { IsTaken self.old block.now }
        requires length { length from.now ≡ block.now.len }
        ensures after { self.new ≡ written self.old block.now from.now }
        ensures alone { WritesAlone self.old block.now from.now }
        ensures region { IsRegion self.new }
    {
        self.lend(block).copy_from_slice(from);
    }

    /// The block's bytes.
    #[inline]
    pub fn bytes(&self, block: &Block) -> &[u8]
        requires { IsTaken self.now block.now }
        ensures value { result.now ≡ block_bytes self.now block.now }
        ensures len { length result.now ≡ block.now.len }
    {
        &self.bytes[block.start()..block.start() + block.len()]
    }

    /// All bytes that are handed out, in order.
    #[inline]
    pub fn in_use(&self) -> &[u8]
        ensures value { result.now ≡ in_use self.now }
        ensures len { length result.now ≡ self.now.taken }
    {
        &self.bytes
    }

    /// How many bytes are left to hand out.
    #[inline]
    pub fn left(&self) -> usize
        ensures left { result ≡ length self.now.bytes - self.now.taken }
        ensures region { IsRegion self.now }
        ensures bytes { (k : ℕ) → slice_index self.now.bytes k < 256 }
    {
        let in_use = self.bytes.as_slice();
        self.size - in_use.len()
    }

    /// All the region's bytes in order, also those that no block has.
    #[inline]
    pub fn finish(self) -> Vec<u8>
        ensures { result.items ≡ self.bytes }
    {
        let Region { mut bytes, size } = self;
        let left = size - bytes.len();
        append_zeros(&mut bytes, left);
        bytes
    }
}
