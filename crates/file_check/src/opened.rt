//! What opening a file gives.

ghost use Rattle.layout_tree.specs.Nodes.{layout_of, IsSettled};
ghost use Rattle.file_check.specs.Held.{HoldsValue};

use layout_tree::Layouts;

/// A file that was opened: its layout, and its content, which is the packing of one value that the layout
/// holds. So the keys of its sets and maps rise, its texts are UTF-8, and its cells are within the limit.
#[derive(Drop)]
pub struct Opened<'a> {
    /// The content, which goes to the end of the file.
    pub content: &'a [u8],
    /// The layout, which is settled.
    pub layouts: Layouts,
    pub ghost settled: { ∥ IsSettled layouts ∥₁ },
    pub ghost held: { ∥ HoldsValue (layout_of layouts).tree content.now ∥₁ },
}
