//! Leaves and zero bits.

ghost use Rattle.std.specs.Prelude.{◌≡◌, ◌+◌, ◌*◌, ◌^◌, ◌<◌, ◌≤◌, ℤ, pos, ◌-ℤ◌, length};
ghost use Rattle.frozen_model.specs.Trees.{Whole, Integer, value_bits};
ghost use Rattle.frozen_model.specs.Layouts.{stride};
ghost use Rattle.frozen_model.specs.Walk.{first_dirty as first_dirty_in};
ghost use Rattle.layout_tree.specs.Nodes.{IsNode, at};
ghost use Rattle.layout_tree.specs.Listing.{kind_of};
ghost use Rattle.layout_tree.specs.Reading.{IsLeaf, plain};
ghost use Rattle.content_check.specs.Steps.{IsNumberAt, IsZeroOrDirty, IsAbove};

use crate::fault::ContentFault;
use bit_field::{all_zero, read_bits, read_signed};
use layout_tree::{Kind, Layouts};

/// The greatest number of a kind of whole numbers.
#[inline]
pub(crate) fn greatest_of(kind: Kind) -> i64
    ensures { (k : Whole) → plain kind ≡ kind_of (Integer k) → result ≡ pos (2 ^ value_bits k) -ℤ pos 1 }
{
    match kind {
        Kind::I8 => 127,
        Kind::I16 => 32767,
        Kind::I32 => 2147483647,
        _ => i64::MAX,
    }
}

/// The number that is n above a base. `None` where it is above the greatest.
#[inline]
pub(crate) fn above_base(base: i64, n: u64, top: i64) -> Option<i64>
    ensures { IsAbove base n top result }
{
    let x = base as i128 + n as i128;
    if x <= top as i128 {
        Some(x as i64)
    } else {
        None
    }
}

/// The number at a leaf of whole numbers. `None` where it is outside the range of its kind.
#[inline]
pub(crate) fn read_number(layouts: &Layouts, content: &[u8], node: u32, bit: u64) -> Option<i64>
    requires node { IsNode layouts.now node }
    requires leaf { IsLeaf (at layouts.now node) }
    requires inside { bit + stride (at layouts.now node) ≤ 8 * length content.now }
    ensures { IsNumberAt content.now (at layouts.now node) bit result }
{
    let width = layouts.bits(node);
    if layouts.version() == 2 {
        let n = read_bits(content, bit, width);
        above_base(layouts.base(node), n, greatest_of(layouts.kind(node)))
    } else {
        Some(read_signed(content, bit, width))
    }
}

/// The first bit that is not zero among so many.
#[cold]
pub(crate) fn first_dirty(content: &[u8], bit: u64, n: u64) -> u64
    requires inside { bit + n ≤ 8 * length content.now }
    requires small { length content.now < 2 ^ 56 }
    ensures { result ≡ first_dirty_in content.now n bit }
{
    let mut at = bit;
    let mut left = n;
    while left > 0 {
        if read_bits(content, at, 1) != 0 {
            return at;
        }
        at += 1;
        left -= 1;
    }
    at
}

/// Whether so many bits are zero.
pub(crate) fn check_zero(content: &[u8], bit: u64, n: u64) -> Result<(), ContentFault>
    requires inside { bit + n ≤ 8 * length content.now }
    requires small { length content.now < 2 ^ 56 }
    ensures { IsZeroOrDirty content.now bit n result }
{
    if all_zero(content, bit, bit + n) {
        Ok(())
    } else {
        Err(ContentFault::Dirty(first_dirty(content, bit, n)))
    }
}
