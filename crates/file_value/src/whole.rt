//! The value of an opened file as a tree.
ghost use Rattle.std.specs.Prelude.{◌≡◌, ◌≤◌, IfOk};
ghost use Rattle.frozen_model.specs.Values.{Value, Of, cells, cell_limit};
ghost use Rattle.frozen_laws.specs.Laws.{IsContent};
ghost use Rattle.layout_tree.specs.Nodes.{layout_of};
ghost use Rattle.typed_tree.specs.References.{value_of_tree};

use crate::putting::put;
use bit_view::View;
use file_check::Opened;
use std::alloc::{AllocError, Global};
use typed_tree::{Builder, Tree};

/// The value that an opened file holds, as a tree, made in one pass. It is of the file's layout, and its cells
/// are within the limit.
pub fn value_of(alloc: Global, opened: &Opened<'_>) -> Result<Tree, AllocError>
    ensures value { IfOk result (λ t. (v : Value)
        → IsContent (layout_of opened.now.layouts).tree v opened.now.content.now → value_of_tree t ≡ v) }
    ensures form { IfOk result (λ t. Of (layout_of opened.now.layouts).tree (value_of_tree t)) }
    ensures few { IfOk result (λ t.
        cells (layout_of opened.now.layouts).tree (value_of_tree t) ≤ cell_limit) }
{
    let whole = View::new(opened.content, &opened.layouts);
    let mut ids = Vec::new(alloc);
    let mut builder = Builder::new(alloc);
    put(whole, &mut ids, &mut builder)?;
    Ok(builder.finish())
}
