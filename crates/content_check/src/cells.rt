//! Inline cells of parts of layouts.

ghost use Rattle.std.specs.Prelude.{◌≡◌, ◌≤◌, true};
ghost use Rattle.frozen_model.specs.Values.{inline_cells as cells_in};
ghost use Rattle.layout_tree.specs.Nodes.{IsNode, at};
ghost use Rattle.layout_tree.specs.Reading.{IsStruct};

use layout_tree::{Kind, Layouts};

/// The inline cells of a part.
#[cycle(cells)]
pub(crate) fn inline_cells(layouts: &Layouts, node: u32) -> u64
    requires node { IsNode layouts.now node }
    ensures cells { result ≡ cells_in (at layouts.now node) }
    ensures few { result ≤ 4096 }
{
    match layouts.kind(node) {
        Kind::Flag | Kind::I8 | Kind::I16 | Kind::I32 | Kind::I64 | Kind::Size => 1,
        Kind::Text | Kind::Bytes | Kind::List | Kind::Set | Kind::Map => 2,
        Kind::Optional => 1 + inline_cells(layouts, node + 2),
        Kind::Struct | Kind::Pair => struct_cells(layouts, node),
    }
}

#[cycle(cells)]
fn struct_cells(layouts: &Layouts, node: u32) -> u64
    requires node { IsNode layouts.now node }
    requires structure { IsStruct (at layouts.now node) }
    ensures cells { result ≡ cells_in (at layouts.now node) }
    ensures few { result ≤ 4096 }
{
    let end = layouts.past(node);
    let mut child = node + 1;
    let mut sum = 0;
    while child < end {
        sum += inline_cells(layouts, child);
        child = layouts.past(child);
    }
    sum
}
