//! Sums and offsets from noted widths.

ghost use Rattle.std.specs.Prelude.{◌≡◌, ◌+◌, ◌++◌, ◌∷◌, ◌<◌, ◌^◌, List, length};
ghost use Rattle.layout_tree.specs.declared.node.NodeSpec.{NodeSpec};
ghost use Rattle.layout_tree.specs.Listing.{nodes_of};
ghost use Rattle.frozen_model.specs.Trees.{nodes as count_nodes};
ghost use Rattle.layout_tree.specs.Segments.{Segment, PartSettled, Below, BelowSettled, Fields, AllSettled};

use crate::node::{Kind, NodeSpec};

// The number after a node's subtree.
fn end_of(nodes: &[NodeSpec], i: usize) -> usize
    requires { Segment nodes.now i }
    ensures { (g : Segment nodes.now i) → result ≡ i + count_nodes g.tree }
{
    let spec = &nodes[i];
    match spec.kind {
        Kind::Flag | Kind::I8 | Kind::I16 | Kind::I32 | Kind::I64 | Kind::Size => i + 1,
        _ => spec.wide as usize,
    }
}

// Gives a distance, a count or a flag its noted width at an offset, and gives that width.
fn settle_width(nodes: &mut [NodeSpec], i: usize, offset: u32) -> u32
    requires { i < length nodes.old }
    ensures { (pre post : List NodeSpec) (x : NodeSpec) → length pre ≡ i → nodes.old ≡ pre ++ x ∷ post
        → (nodes.new ≡ pre ++ record x { bits = x.wide; offset = offset } ∷ post) × (result ≡ x.wide) }
{
    let spec = &mut nodes[i];
    spec.bits = spec.wide;
    spec.offset = offset;
    spec.wide
}

// Gives each leaf of a subtree its noted width, and its nodes their sums and offsets.
#[cycle(settle)]
pub(crate) fn settle_part(nodes: &mut [NodeSpec], i: usize, offset: u32) -> u32
    requires { Segment nodes.old i }
    ensures { (g : Segment nodes.old i) → PartSettled g offset nodes.new result }
{
    let bits = settle_below(nodes, i);
    let spec = &mut nodes[i];
    spec.bits = bits;
    spec.offset = offset;
    bits
}

// The same of all nodes below a node; gives the node's bits.
#[cycle(settle)]
fn settle_below(nodes: &mut [NodeSpec], i: usize) -> u32
    requires { Below nodes.old i }
    ensures { (g : Below nodes.old i) → BelowSettled g nodes.new result }
{
    match nodes[i].kind {
        Kind::Text | Kind::Bytes => {
            let distance = settle_width(nodes, i + 1, 0);
            distance + settle_width(nodes, i + 2, distance)
        }
        Kind::List | Kind::Set | Kind::Map => {
            settle_part(nodes, i + 3, 0);
            let distance = settle_width(nodes, i + 1, 0);
            distance + settle_width(nodes, i + 2, distance)
        }
        Kind::Optional => {
            let flag = settle_width(nodes, i + 1, 0);
            flag + settle_part(nodes, i + 2, flag)
        }
        Kind::Struct | Kind::Pair => {
            let end = nodes[i].wide as usize;
            settle_fields(nodes, i + 1, end, 0)
        }
        _ => nodes[i].wide,
    }
}

// The same of fields, the first of which stands at `i`; gives the end of their bits.
#[cycle(settle)]
fn settle_fields(nodes: &mut [NodeSpec], i: usize, end: usize, offset: u32) -> u32
    requires { Fields nodes.old i end offset }
    ensures { (g : Fields nodes.old i end offset) → AllSettled g offset nodes.new result }
{
    let mut next = i;
    let mut sum = offset;
    while next < end {
        let bits = settle_part(nodes, next, sum);
        next = end_of(nodes, next);
        sum += bits;
    }
    sum
}
