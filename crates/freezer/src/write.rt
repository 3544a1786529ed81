//! Values in blocks.

ghost use Rattle.std.specs.Prelude.{◌≡◌, ◌+◌, ◌-◌, ◌*◌, ◌^◌, ◌<◌, ◌≤◌, ℕ, length, [], IsTrue, ◌↔◌};
ghost use Rattle.frozen_model.specs.Bits.{bits_of};
ghost use Rattle.frozen_model.specs.Values.{count};
ghost use Rattle.frozen_model.specs.Layouts.{stride, Version2};
ghost use Rattle.frozen_model.specs.Packing.{range_bits, distance};
ghost use Rattle.frozen_laws.specs.Everywhere.{RangeFits};
ghost use Rattle.block_region.specs.Space.{IsTaken};
ghost use Rattle.layout_tree.specs.Nodes.{IsNode, at, layout_of};
ghost use Rattle.layout_tree.specs.Reading.{IsRange, IsHolder, distance_width, count_width, item_of};
ghost use Rattle.typed_tree.specs.References.{value_of_ref};
ghost use Rattle.typed_tree.specs.Parts.{items_of, fields_of, IsRow, IsMap, IsRecord};
ghost use Rattle.typed_tree.specs.Spots.{pair};
ghost use Rattle.freezer.specs.Writing.{Ready, Wrote, EachReady, EachWrote, Writes};

use crate::leaf::stored_number;
use crate::put::put;
use block_region::{Block, Region};
use layout_tree::Layouts;
use typed_tree::{TreeKind, TreeRef};

// Writes the distance and the count of a range whose block is `inner`.
fn write_range(
    layouts: &Layouts,
    node: u32,
    n: u64,
    region: &mut Region,
    block: &Block,
    bit: u64,
    inner: &Block,
)
    requires node { IsNode layouts.now node }
    requires range { IsRange (at layouts.now node) }
    requires taken { IsTaken region.old block.now }
    requires after { block.now.start ≤ inner.now.start }
    requires inside { bit + stride (at layouts.now node) ≤ 8 * block.now.len }
    requires small { bit + stride (at layouts.now node) < 2 ^ 56 }
    requires fits { RangeFits (distance_width (at layouts.now node)) (count_width (at layouts.now node)) n
        (inner.now.start - block.now.start) }
    ensures taken { region.new.taken ≡ region.old.taken }
    ensures length { length region.new.bytes ≡ length region.old.bytes }
    ensures written { (q : ℕ) → Writes (bits_of region.old.bytes) (bits_of region.new.bytes)
        (8 * block.now.start + bit) (stride (at layouts.now node))
        (range_bits (distance_width (at layouts.now node)) (count_width (at layouts.now node)) n
        (inner.now.start - block.now.start)) q 0 [] }
{
    let distance = if n == 0 {
        0
    } else {
        inner.start() - block.start()
    };
    let width = layouts.distance_bits(node);
    let count_width = layouts.count_bits(node);
    let both = distance as u64 + (n << width);
    put(region, block, bit, width + count_width, both);
}

/// Writes a part at a bit of a block, and its blocks.
#[cycle(write)]
pub(crate) fn write_part(
    layouts: &Layouts,
    based: bool,
    node: u32,
    v: TreeRef<'_>,
    region: &mut Region,
    block: &Block,
    bit: u64,
)
    requires based { IsTrue based ↔ ((layout_of layouts.now).version ≡ Version2) }
    requires node { IsNode layouts.now node }
    requires ready { Ready (at layouts.now node) (value_of_ref v) region.old block.now bit }
    ensures { Wrote (at layouts.now node) (value_of_ref v.entry) region.old region.new block.now bit }
{
    let kind = v.kind();
    match kind {
        TreeKind::Flag => put(region, block, bit, layouts.bits(node), v.flag() as u64),
        TreeKind::Int => {
            let width = layouts.bits(node);
            let stored = stored_number(layouts, based, node, width, v.int());
            put(region, block, bit, width, stored);
        }
        TreeKind::Text | TreeKind::Bytes => {
            let bytes = v.bytes();
            let Some(inner) = region.take(bytes.len()) else {
                return;
            };
            write_range(
                layouts,
                node,
                bytes.len() as u64,
                region,
                block,
                bit,
                &inner,
            );
            region.copy(&inner, bytes);
        }
        TreeKind::List | TreeKind::Set | TreeKind::Map => {
            let n = v.len();
            let Some(inner) = region.take(layouts.block_len(node, n) as usize) else {
                return;
            };
            write_range(layouts, node, n, region, block, bit, &inner);
            match kind {
                TreeKind::Map => write_pairs(layouts, based, node, v, region, &inner),
                _ => write_items(layouts, based, node, v, region, &inner),
            }
        }
        TreeKind::Struct => write_fields(layouts, based, node, v, region, block, bit),
        TreeKind::Absent => {}
        TreeKind::Present => {
            let width = layouts.isset_bits(node);
            put(region, block, bit, width, 1);
            write_part(
                layouts,
                based,
                node + 2,
                v.inner(),
                region,
                block,
                bit + width as u64,
            );
        }
    }
}

// Writes the items of a list or a set in their block, and their blocks. Items of no bits are written as they
// stand, since the bits of a region are zero.
#[cycle(write)]
fn write_items(
    layouts: &Layouts,
    based: bool,
    node: u32,
    v: TreeRef<'_>,
    region: &mut Region,
    block: &Block,
)
    requires based { IsTrue based ↔ ((layout_of layouts.now).version ≡ Version2) }
    requires node { IsNode layouts.now node }
    requires holder { IsHolder (at layouts.now node) }
    requires row { IsRow (value_of_ref v) }
    requires ready { EachReady (item_of (at layouts.now node)) (items_of (value_of_ref v)) region.old
        block.now }
    ensures { EachWrote (item_of (at layouts.now node)) (items_of (value_of_ref v.entry)) region.old
        region.new block.now 0 }
{
    let stride = layouts.stride(node) as u64;
    if stride == 0 {
        return;
    }
    let n = v.len();
    for i in 0..n {
        write_part(
            layouts,
            based,
            node + 3,
            v.item(i),
            region,
            block,
            i * stride,
        );
    }
}

// Writes the pairs of a map in their block, and their blocks.
#[cycle(write)]
fn write_pairs(
    layouts: &Layouts,
    based: bool,
    node: u32,
    v: TreeRef<'_>,
    region: &mut Region,
    block: &Block,
)
    requires based { IsTrue based ↔ ((layout_of layouts.now).version ≡ Version2) }
    requires node { IsNode layouts.now node }
    requires holder { IsHolder (at layouts.now node) }
    requires map { IsMap (value_of_ref v) }
    requires ready { EachReady (item_of (at layouts.now node)) (items_of (value_of_ref v)) region.old
        block.now }
    ensures { EachWrote (item_of (at layouts.now node)) (items_of (value_of_ref v.entry)) region.old
        region.new block.now 0 }
{
    let n = v.len();
    let stride = layouts.stride(node) as u64;
    for i in 0..n {
        let (key, value) = v.entry(i);
        write_pair(
            layouts,
            based,
            node + 3,
            key,
            value,
            region,
            block,
            i * stride,
        );
    }
}

// Writes a pair of a map as a struct of two fields, and its blocks.
#[cycle(write)]
fn write_pair(
    layouts: &Layouts,
    based: bool,
    node: u32,
    key: TreeRef<'_>,
    value: TreeRef<'_>,
    region: &mut Region,
    block: &Block,
    bit: u64,
)
    requires based { IsTrue based ↔ ((layout_of layouts.now).version ≡ Version2) }
    requires node { IsNode layouts.now node }
    requires ready { Ready (at layouts.now node) (pair (value_of_ref key) (value_of_ref value)) region.old
        block.now bit }
    ensures { Wrote (at layouts.now node) (pair (value_of_ref key.entry) (value_of_ref value.entry))
        region.old region.new block.now bit }
{
    let first = node + 1;
    write_part(layouts, based, first, key, region, block, bit);
    let second = layouts.past(first);
    let place = bit + layouts.bits(first) as u64;
    write_part(layouts, based, second, value, region, block, place);
}

// Writes the fields of a struct one after another, and their blocks.
#[cycle(write)]
fn write_fields(
    layouts: &Layouts,
    based: bool,
    node: u32,
    v: TreeRef<'_>,
    region: &mut Region,
    block: &Block,
    bit: u64,
)
    requires based { IsTrue based ↔ ((layout_of layouts.now).version ≡ Version2) }
    requires node { IsNode layouts.now node }
    requires record { IsRecord (value_of_ref v) }
    requires ready { Ready (at layouts.now node) (value_of_ref v) region.old block.now bit }
    ensures { Wrote (at layouts.now node) (value_of_ref v.entry) region.old region.new block.now bit }
{
    let end = layouts.past(node);
    let mut child = node + 1;
    let mut place = bit;
    let mut i = 0;
    while child < end {
        write_part(layouts, based, child, v.field_at(i), region, block, place);
        place += layouts.bits(child) as u64;
        child = layouts.past(child);
        i += 1;
    }
}
