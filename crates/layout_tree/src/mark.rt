//! The numbers after the nodes below each node of a list that is given.

ghost use Rattle.std.specs.Prelude.{◌≡◌};
ghost use Rattle.layout_tree.specs.Marking.{is_leaf_kind, Unmarked, Marked, UnmarkedBelow, BelowMarked};
ghost use Rattle.layout_tree.specs.Marking.{UnmarkedFields, FieldsMarked};

use crate::node::{Kind, NodeSpec};

// Whether no nodes stand below a node of a kind.
fn is_leaf(kind: Kind) -> bool
    ensures { result ≡ is_leaf_kind kind }
{
    match kind {
        Kind::Flag | Kind::I8 | Kind::I16 | Kind::I32 | Kind::I64 | Kind::Size => true,
        _ => false,
    }
}

// Puts the number after the nodes below it in the place of the noted width of each inner node of a subtree;
// gives the number after the subtree. It calls itself no deeper than the levels of the layout.
#[cycle(mark)]
pub(crate) fn mark_part(nodes: &mut [NodeSpec], i: usize) -> usize
    requires { Unmarked nodes.old i }
    ensures { (g : Unmarked nodes.old i) → Marked g nodes.new result }
{
    if is_leaf(nodes[i].kind) {
        return i + 1;
    }
    let end = mark_below(nodes, i);
    let spec = &mut nodes[i];
    spec.wide = end as u32;
    end
}

// The same for all nodes below an inner node.
#[cycle(mark)]
fn mark_below(nodes: &mut [NodeSpec], i: usize) -> usize
    requires { UnmarkedBelow nodes.old i }
    ensures { (g : UnmarkedBelow nodes.old i) → BelowMarked g nodes.new result }
{
    match nodes[i].kind {
        Kind::Text | Kind::Bytes => i + 3,
        Kind::List | Kind::Set | Kind::Map => mark_part(nodes, i + 3),
        Kind::Optional => mark_part(nodes, i + 2),
        _ => mark_fields(nodes, i),
    }
}

// The same for the fields of a struct: those nodes whose parent it is.
#[cycle(mark)]
fn mark_fields(nodes: &mut [NodeSpec], i: usize) -> usize
    requires { UnmarkedFields nodes.old i }
    ensures { (g : UnmarkedFields nodes.old i) → FieldsMarked g nodes.new result }
{
    let mut next = i + 1;
    while next < nodes.len() {
        if nodes[next].parent as usize != i {
            return next;
        }
        next = mark_part(nodes, next);
    }
    next
}
