//! The listing of a layout.
ghost use Rattle.std.specs.Prelude.{◌≡◌, IfOk, string_bytes};
ghost use Rattle.layout_tree.specs.Nodes.{layout_of};
ghost use Rattle.cli_texts.specs.Listing.{listing};

use crate::line::push_line;
use layout_tree::Layouts;
use std::alloc::{AllocError, Global};
use std::string::String;

/// The listing of a layout: one line for each node in order, with its number, the number of its parent, the
/// id of its field, its type name, its bits and its bit offset, in version 2 its base too.
///
/// # Errors
///
/// `AllocError` where memory runs out, and nowhere else.
pub fn layout_text(alloc: Global, layouts: &Layouts) -> Result<String, AllocError>
    ensures { IfOk result (λ s. string_bytes s ≡ listing (layout_of layouts.now)) }
{
    let mut out = String::new(alloc);
    for node in 0..layouts.count() {
        let spec = layouts.node(node);
        push_line(&mut out, layouts, node, &spec)?;
    }
    Ok(out)
}
