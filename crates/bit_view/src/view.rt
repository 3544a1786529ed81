//! A view of a part of a value.

ghost use Rattle.layout_tree.specs.Nodes.{layout_of, IsSettled};
ghost use Rattle.bit_view.specs.Lying.{HasPart};

use layout_tree::Layouts;

/// A part of the value that a content packs, where it lies. It is of the size of a few numbers, and copied.
#[derive(Clone, Copy)]
pub struct View<'a> {
    /// The content.
    pub(crate) content: &'a [u8],
    /// Its layout.
    pub(crate) layouts: &'a Layouts,
    /// The node of the part.
    pub(crate) node: u32,
    /// The byte at which the block begins that the part lies in.
    pub(crate) block: u64,
    /// The first bit of the part in the content.
    pub(crate) bit: u64,
    ghost settled: { ∥ IsSettled layouts.now ∥₁ },
    ghost lies: { ∥ HasPart (layout_of layouts.now).tree content.now node block bit ∥₁ },
}
