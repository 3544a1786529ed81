//! The walk over a value.

ghost use Rattle.std.specs.Prelude.{◌≡◌, ◌+◌};
ghost use Rattle.layout_tree.specs.Nodes.{IsNode, at};
ghost use Rattle.layout_tree.specs.Reading.{IsHolder, item_of};
ghost use Rattle.typed_tree.specs.References.{value_of_ref};
ghost use Rattle.typed_tree.specs.Parts.{items_of, IsRow, IsMap, IsRecord};
ghost use Rattle.typed_tree.specs.Spots.{pair};
ghost use Rattle.measure_pass.specs.Growing.{Ready, EachReady, Visited, EachVisited};

use crate::leaf::{need_of, note_range};
use bit_field::need_unsigned;
use layout_tree::Layouts;
use typed_tree::{TreeKind, TreeRef};

/// Notes what a part needs whose first own block is `from` bytes after the start of the block that it lies
/// in, and gives where the next block begins.
#[cycle(visit)]
pub(crate) fn visit_part(layouts: &mut Layouts, node: u32, v: TreeRef<'_>, from: u64) -> u64
    requires node { IsNode layouts.old node }
    requires ready { Ready (at layouts.old node) (value_of_ref v) from }
    ensures { Visited (at layouts.old node) (value_of_ref v.entry) layouts.old layouts.new node from result }
{
    let kind = v.kind();
    match kind {
        TreeKind::Flag => {
            layouts.note(node, need_unsigned(v.flag() as u64));
            from
        }
        TreeKind::Int => {
            let need = need_of(layouts, node, v.int());
            layouts.note(node, need);
            from
        }
        TreeKind::Text | TreeKind::Bytes => {
            let n = v.bytes().len() as u64;
            note_range(layouts, node, n, from);
            from + n
        }
        TreeKind::List | TreeKind::Set | TreeKind::Map => {
            let n = v.len();
            note_range(layouts, node, n, from);
            let block = layouts.block_len(node, n);
            match kind {
                TreeKind::Map => from + visit_pairs(layouts, node, v, block),
                _ => from + visit_items(layouts, node, v, block),
            }
        }
        TreeKind::Struct => visit_fields(layouts, node, v, from),
        TreeKind::Absent => from,
        TreeKind::Present => {
            layouts.note(node + 1, 1);
            visit_part(layouts, node + 2, v.inner(), from)
        }
    }
}

// The same of the items of a list or set, from the start of their block.
#[cycle(visit)]
fn visit_items(layouts: &mut Layouts, node: u32, v: TreeRef<'_>, from: u64) -> u64
    requires node { IsNode layouts.old node }
    requires holder { IsHolder (at layouts.old node) }
    requires row { IsRow (value_of_ref v) }
    requires ready { EachReady (item_of (at layouts.old node)) (items_of (value_of_ref v)) from }
    ensures { EachVisited (item_of (at layouts.old node)) (items_of (value_of_ref v.entry)) layouts.old
        layouts.new (node + 3) from result }
{
    let n = v.len();
    let mut next = from;
    for i in 0..n {
        next = visit_part(layouts, node + 3, v.item(i), next);
    }
    next
}

// The same of the pairs of a map.
#[cycle(visit)]
fn visit_pairs(layouts: &mut Layouts, node: u32, v: TreeRef<'_>, from: u64) -> u64
    requires node { IsNode layouts.old node }
    requires holder { IsHolder (at layouts.old node) }
    requires map { IsMap (value_of_ref v) }
    requires ready { EachReady (item_of (at layouts.old node)) (items_of (value_of_ref v)) from }
    ensures { EachVisited (item_of (at layouts.old node)) (items_of (value_of_ref v.entry)) layouts.old
        layouts.new (node + 3) from result }
{
    let n = v.len();
    let mut next = from;
    for i in 0..n {
        let (key, value) = v.entry(i);
        next = visit_pair(layouts, node + 3, key, value, next);
    }
    next
}

// The same of a pair of a map, as a struct of two fields.
#[cycle(visit)]
fn visit_pair(
    layouts: &mut Layouts,
    node: u32,
    key: TreeRef<'_>,
    value: TreeRef<'_>,
    from: u64,
) -> u64
    requires node { IsNode layouts.old node }
    requires ready { Ready (at layouts.old node) (pair (value_of_ref key) (value_of_ref value)) from }
    ensures { Visited (at layouts.old node) (pair (value_of_ref key.entry) (value_of_ref value.entry))
        layouts.old layouts.new node from result }
{
    let first = node + 1;
    let second = layouts.past(first);
    let next = visit_part(layouts, first, key, from);
    visit_part(layouts, second, value, next)
}

// The same of the fields of a struct.
#[cycle(visit)]
fn visit_fields(layouts: &mut Layouts, node: u32, v: TreeRef<'_>, from: u64) -> u64
    requires node { IsNode layouts.old node }
    requires record { IsRecord (value_of_ref v) }
    requires ready { Ready (at layouts.old node) (value_of_ref v) from }
    ensures { Visited (at layouts.old node) (value_of_ref v.entry) layouts.old layouts.new node from result }
{
    let end = layouts.past(node);
    let mut child = node + 1;
    let mut next = from;
    let mut i = 0;
    while child < end {
        let past = layouts.past(child);
        next = visit_part(layouts, child, v.field_at(i), next);
        child = past;
        i += 1;
    }
    next
}
