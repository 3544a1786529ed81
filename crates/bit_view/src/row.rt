//! The items of a list, a set or a map by their places.

ghost use Rattle.std.specs.Prelude.{◌≡◌, ◌+◌};
ghost use Rattle.frozen_model.specs.Bits.{field};
ghost use Rattle.layout_tree.specs.Reading.{distance_width, item_stride};
ghost use Rattle.bit_view.specs.Views.{layout_of_view};

use crate::view::View;

/// The items of a list or a set, or the pairs of a map, by their places. It keeps what all of them share, so
/// that each is found by a product and a sum.
#[derive(Clone, Copy)]
pub struct Row<'a> {
    // Whose items they are.
    whole: View<'a>,
    // The byte at which their block begins.
    block: u64,
    // The bits from one item to the next.
    stride: u64,
    ghost begins: { block ≡ whole.block
        + field whole.content.now whole.bit (distance_width (layout_of_view whole)) },
    ghost step: { stride ≡ item_stride (layout_of_view whole) },
}

impl<'a> Row<'a> {
    ghost use Rattle.std.specs.Prelude.{◌<◌, ◌↔◌, Some};
    ghost use Rattle.frozen_model.specs.Values.{count, nth};
    ghost use Rattle.layout_tree.specs.declared.node.Kind.TheVariants as kinds;
    ghost use Rattle.layout_tree.specs.Reading.{item_of};
    ghost use Rattle.typed_tree.specs.Parts.{IsItems, IsMap, items_of, fields_of};
    ghost use Rattle.bit_view.specs.Rows.{view_of_row};
    ghost use Rattle.bit_view.specs.Views.{value_of_view, kind_of_view, is_relaxed};

    /// The items of a list, a set or a map.
    #[inline]
    pub(crate) fn of(whole: View<'a>) -> Row<'a>
        requires { IsItems (value_of_view whole) }
        ensures { view_of_row result ≡ whole.entry }
    {
        Row {
            whole,
            block: whole.own_block(),
            stride: u64::from(whole.layouts.stride(whole.node)),
        }
    }

    /// An item, or a pair of a map, by its place from 0.
    #[inline]
    pub fn item(self, i: u64) -> View<'a>
        requires { i < count (items_of (value_of_view (view_of_row self))) }
        ensures item { value_of_view result ≡ nth (items_of (value_of_view (view_of_row self.entry))) i }
        ensures pair { IsMap (value_of_view (view_of_row self.entry))
            → count (fields_of (value_of_view result)) ≡ 2 }
        ensures kind { kind_of_view result ≡ Some kinds.Pair ↔ IsMap (value_of_view (view_of_row self.entry)) }
        ensures layout { layout_of_view result ≡ item_of (layout_of_view (view_of_row self.entry)) }
        ensures relaxed { is_relaxed result ≡ is_relaxed (view_of_row self.entry) }
    {
        let whole = self.whole;
        View {
            content: whole.content,
            layouts: whole.layouts,
            node: whole.node + 3,
            block: self.block,
            bit: 8 * self.block + i * self.stride,
        }
    }
}
