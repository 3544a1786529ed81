//! The walk over a value that takes its numbers into bounds.
ghost use Rattle.std.specs.Prelude.{◌≡◌, ◌+◌, length};
ghost use Rattle.frozen_model.specs.Trees.{nodes};
ghost use Rattle.frozen_model.specs.Values.{Of, OfEach};
ghost use Rattle.layout_tree.specs.Nodes.{IsNode, at, noted_in};
ghost use Rattle.layout_tree.specs.Reading.{IsHolder, item_of};
ghost use Rattle.typed_tree.specs.References.{value_of_ref};
ghost use Rattle.typed_tree.specs.Parts.{items_of, IsRow, IsMap, IsRecord};
ghost use Rattle.typed_tree.specs.Spots.{pair};
ghost use Rattle.value_bounds.specs.Seeing.{Saw, EachSaw};

use crate::bounds::{Bounds, see};
use layout_tree::Layouts;
use typed_tree::{TreeKind, TreeRef};

/// Takes the numbers of a part into the bounds of its nodes.
#[cycle(walk)]
pub(crate) fn see_part(layouts: &Layouts, node: u32, v: TreeRef<'_>, bounds: &mut [Bounds])
    requires node { IsNode layouts.now node }
    requires form { Of (at layouts.now node) (value_of_ref v) }
    requires room { length bounds.old ≡ nodes (noted_in layouts.now) }
    ensures { Saw (at layouts.now node) (value_of_ref v.entry) bounds.old bounds.new node }
{
    let kind = v.kind();
    match kind {
        TreeKind::Flag => see(bounds, node, i64::from(v.flag())),
        TreeKind::Int => see(bounds, node, v.int()),
        TreeKind::Text | TreeKind::Bytes => see(bounds, node + 2, v.bytes().len() as i64),
        TreeKind::List | TreeKind::Set | TreeKind::Map => {
            see(bounds, node + 2, v.len() as i64);
            match kind {
                TreeKind::Map => see_pairs(layouts, node, v, bounds),
                _ => see_items(layouts, node, v, bounds),
            }
        }
        TreeKind::Struct => see_fields(layouts, node, v, bounds),
        TreeKind::Absent => {}
        TreeKind::Present => {
            see(bounds, node + 1, 1);
            see_part(layouts, node + 2, v.inner(), bounds);
        }
    }
}

// Takes the numbers of the items of a list or a set into bounds.
#[cycle(walk)]
fn see_items(layouts: &Layouts, node: u32, v: TreeRef<'_>, bounds: &mut [Bounds])
    requires node { IsNode layouts.now node }
    requires holder { IsHolder (at layouts.now node) }
    requires row { IsRow (value_of_ref v) }
    requires form { OfEach (item_of (at layouts.now node)) (items_of (value_of_ref v)) }
    requires room { length bounds.old ≡ nodes (noted_in layouts.now) }
    ensures { EachSaw (item_of (at layouts.now node)) (items_of (value_of_ref v.entry)) bounds.old bounds.new
        (node + 3) }
{
    let n = v.len();
    for i in 0..n {
        see_part(layouts, node + 3, v.item(i), bounds);
    }
}

// Takes the numbers of the pairs of a map into bounds.
#[cycle(walk)]
fn see_pairs(layouts: &Layouts, node: u32, v: TreeRef<'_>, bounds: &mut [Bounds])
    requires node { IsNode layouts.now node }
    requires holder { IsHolder (at layouts.now node) }
    requires map { IsMap (value_of_ref v) }
    requires form { OfEach (item_of (at layouts.now node)) (items_of (value_of_ref v)) }
    requires room { length bounds.old ≡ nodes (noted_in layouts.now) }
    ensures { EachSaw (item_of (at layouts.now node)) (items_of (value_of_ref v.entry)) bounds.old bounds.new
        (node + 3) }
{
    let n = v.len();
    for i in 0..n {
        let (key, value) = v.entry(i);
        see_pair(layouts, node + 3, key, value, bounds);
    }
}

// Takes the numbers of a pair of a map into bounds, as those of a struct of two fields.
#[cycle(walk)]
fn see_pair(
    layouts: &Layouts,
    node: u32,
    key: TreeRef<'_>,
    value: TreeRef<'_>,
    bounds: &mut [Bounds],
)
    requires node { IsNode layouts.now node }
    requires form { Of (at layouts.now node) (pair (value_of_ref key) (value_of_ref value)) }
    requires room { length bounds.old ≡ nodes (noted_in layouts.now) }
    ensures { Saw (at layouts.now node) (pair (value_of_ref key.entry) (value_of_ref value.entry)) bounds.old
        bounds.new node }
{
    let first = node + 1;
    see_part(layouts, first, key, bounds);
    let second = layouts.past(first);
    see_part(layouts, second, value, bounds);
}

// Takes the numbers of the fields of a struct into bounds.
#[cycle(walk)]
fn see_fields(layouts: &Layouts, node: u32, v: TreeRef<'_>, bounds: &mut [Bounds])
    requires node { IsNode layouts.now node }
    requires record { IsRecord (value_of_ref v) }
    requires form { Of (at layouts.now node) (value_of_ref v) }
    requires room { length bounds.old ≡ nodes (noted_in layouts.now) }
    ensures { Saw (at layouts.now node) (value_of_ref v.entry) bounds.old bounds.new node }
{
    let end = layouts.past(node);
    let mut child = node + 1;
    let mut i = 0;
    while child < end {
        see_part(layouts, child, v.field_at(i), bounds);
        child = layouts.past(child);
        i += 1;
    }
}
