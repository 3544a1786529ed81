//! The ranges of a value, as passes over ranges take them.

ghost use Rattle.std.specs.Prelude.{◌≡◌, ◌+◌, ◌++◌, [], IfOk, map, true};
ghost use Rattle.frozen_model.specs.Values.{Of, OfEach};
ghost use Rattle.layout_tree.specs.Nodes.{IsNode, at};
ghost use Rattle.layout_tree.specs.Reading.{IsHolder, IsLeaf, item_of};
ghost use Rattle.typed_tree.specs.References.{value_of_ref};
ghost use Rattle.typed_tree.specs.Parts.{items_of, IsRow, IsMap, IsRecord};
ghost use Rattle.typed_tree.specs.Spots.{pair};
ghost use Rattle.measure_pass.specs.Spots.{with_spot, unplaced, Gathers, EachGathers};

use crate::ranges::RangeSpot;
use layout_tree::{Kind, Layouts};
use std::alloc::AllocError;
use typed_tree::{TreeKind, TreeRef};

// Adds a range, where it is not empty.
fn add_range(
    spots: &mut Vec<RangeSpot>,
    node: u32,
    count: u64,
    parent: u64,
) -> Result<(), AllocError>
    ensures { IfOk result (λ _. spots.new.items ≡ spots.old.items
        ++ map unplaced (with_spot node count parent 0 [])) }
{
    if count == 0 {
        return Ok(());
    }
    spots.push(RangeSpot {
        node,
        count,
        parent,
        start: 0,
    })?;
    Ok(())
}

// Whether a part is a flag or a number. `false` proves nothing.
fn is_leaf(layouts: &Layouts, node: u32) -> bool
    requires { IsNode layouts.now node }
    ensures { result ≡ true → IsLeaf (at layouts.now node) }
{
    match layouts.kind(node) {
        Kind::Flag | Kind::I8 | Kind::I16 | Kind::I32 | Kind::I64 => true,
        _ => false,
    }
}

// Adds the ranges of a part that lies in the block of the range with the number `parent`. It calls itself no
// deeper than the levels of the layout.
#[cycle(gather)]
pub(crate) fn gather_part(
    spots: &mut Vec<RangeSpot>,
    layouts: &Layouts,
    node: u32,
    v: TreeRef<'_>,
    parent: u64,
) -> Result<(), AllocError>
    requires node { IsNode layouts.now node }
    requires form { Of (at layouts.now node) (value_of_ref v) }
    ensures { IfOk result (λ _. Gathers (at layouts.now node) (value_of_ref v.entry) node parent
        spots.old.items spots.new.items) }
{
    let kind = v.kind();
    match kind {
        TreeKind::Flag | TreeKind::Int | TreeKind::Absent => Ok(()),
        TreeKind::Text | TreeKind::Bytes => {
            add_range(spots, node, v.bytes().len() as u64, parent)
        }
        TreeKind::List | TreeKind::Set | TreeKind::Map => {
            let here = spots.len() as u64;
            add_range(spots, node, v.len(), parent)?;
            match kind {
                TreeKind::Map => gather_pairs(spots, layouts, node, v, here),
                _ => gather_items(spots, layouts, node, v, here),
            }
        }
        TreeKind::Struct => gather_fields(spots, layouts, node, v, parent),
        TreeKind::Present => gather_part(spots, layouts, node + 2, v.inner(), parent),
    }
}

// The same of the items of a list or set. Items that are flags or numbers have no ranges, and are passed
// over.
#[cycle(gather)]
fn gather_items(
    spots: &mut Vec<RangeSpot>,
    layouts: &Layouts,
    node: u32,
    v: TreeRef<'_>,
    parent: u64,
) -> Result<(), AllocError>
    requires node { IsNode layouts.now node }
    requires holder { IsHolder (at layouts.now node) }
    requires row { IsRow (value_of_ref v) }
    requires form { OfEach (item_of (at layouts.now node)) (items_of (value_of_ref v)) }
    ensures { IfOk result (λ _. EachGathers (item_of (at layouts.now node)) (items_of (value_of_ref v.entry))
        (node + 3) parent spots.old.items spots.new.items) }
{
    let item = node + 3;
    if is_leaf(layouts, item) {
        return Ok(());
    }
    let n = v.len();
    for i in 0..n {
        gather_part(spots, layouts, item, v.item(i), parent)?;
    }
    Ok(())
}

// The same of the pairs of a map.
#[cycle(gather)]
fn gather_pairs(
    spots: &mut Vec<RangeSpot>,
    layouts: &Layouts,
    node: u32,
    v: TreeRef<'_>,
    parent: u64,
) -> Result<(), AllocError>
    requires node { IsNode layouts.now node }
    requires holder { IsHolder (at layouts.now node) }
    requires map { IsMap (value_of_ref v) }
    requires form { OfEach (item_of (at layouts.now node)) (items_of (value_of_ref v)) }
    ensures { IfOk result (λ _. EachGathers (item_of (at layouts.now node)) (items_of (value_of_ref v.entry))
        (node + 3) parent spots.old.items spots.new.items) }
{
    let n = v.len();
    for i in 0..n {
        let (key, value) = v.entry(i);
        gather_pair(spots, layouts, node + 3, key, value, parent)?;
    }
    Ok(())
}

// The same of a pair of a map, as a struct of two fields.
#[cycle(gather)]
fn gather_pair(
    spots: &mut Vec<RangeSpot>,
    layouts: &Layouts,
    node: u32,
    key: TreeRef<'_>,
    value: TreeRef<'_>,
    parent: u64,
) -> Result<(), AllocError>
    requires node { IsNode layouts.now node }
    requires form { Of (at layouts.now node) (pair (value_of_ref key) (value_of_ref value)) }
    ensures { IfOk result (λ _. Gathers (at layouts.now node)
        (pair (value_of_ref key.entry) (value_of_ref value.entry)) node parent spots.old.items
        spots.new.items) }
{
    let first = node + 1;
    let second = layouts.past(first);
    gather_part(spots, layouts, first, key, parent)?;
    gather_part(spots, layouts, second, value, parent)?;
    Ok(())
}

// The same of the fields of a struct.
#[cycle(gather)]
fn gather_fields(
    spots: &mut Vec<RangeSpot>,
    layouts: &Layouts,
    node: u32,
    v: TreeRef<'_>,
    parent: u64,
) -> Result<(), AllocError>
    requires node { IsNode layouts.now node }
    requires record { IsRecord (value_of_ref v) }
    requires form { Of (at layouts.now node) (value_of_ref v) }
    ensures { IfOk result (λ _. Gathers (at layouts.now node) (value_of_ref v.entry) node parent
        spots.old.items spots.new.items) }
{
    let end = layouts.past(node);
    let mut child = node + 1;
    let mut i = 0;
    while child < end {
        gather_part(spots, layouts, child, v.field_at(i), parent)?;
        child = layouts.past(child);
        i += 1;
    }
    Ok(())
}
