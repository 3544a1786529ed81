//! A cursor over items.

ghost use Rattle.std.specs.Prelude.{◌≡◌, ◌≤◌};
ghost use Rattle.frozen_model.specs.Values.{count};
ghost use Rattle.typed_tree.specs.Parts.{items_of};
ghost use Rattle.bit_view.specs.Rows.{view_of_row};
ghost use Rattle.bit_view.specs.Views.{value_of_view};

use crate::row::Row;
use crate::view::View;

/// The items of a list or a set, or the pairs of a map, in order.
#[derive(Clone, Copy)]
pub struct Items<'a> {
    // The items, by their places.
    row: Row<'a>,
    // How many there are.
    len: u64,
    // The place of the next one.
    next: u64,
    ghost counted: { len ≡ count (items_of (value_of_view (view_of_row row))) },
    ghost within: { next ≤ len },
}

impl<'a> Items<'a> {
    ghost use Rattle.typed_tree.specs.Parts.{IsItems};
    ghost use Rattle.bit_view.specs.Cursor.{items_left, IsNext};

    /// The items of a list, a set or a map from the first on.
    #[inline]
    pub(crate) fn of(whole: View<'a>) -> Items<'a>
        requires { IsItems (value_of_view whole) }
        ensures { items_left result ≡ items_of (value_of_view whole.entry) }
    {
        Items {
            row: whole.row(),
            len: whole.len(),
            next: 0,
        }
    }

    /// The next item. `None` where none is left.
    #[inline]
    pub fn next(&mut self) -> Option<View<'a>>
        ensures { IsNext (items_left self.old) result (items_left self.new) }
    {
        if self.next == self.len {
            return None;
        }
        let item = self.row.item(self.next);
        self.next += 1;
        Some(item)
    }
}
