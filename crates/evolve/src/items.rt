//! A cursor over the items of a part.
ghost use Rattle.std.specs.Prelude.{◌≡◌, ◌≤◌};
ghost use Rattle.frozen_model.specs.Values.{count};
ghost use Rattle.typed_tree.specs.Parts.{IsItems, items_of};
ghost use Rattle.evolve.specs.Lenses.{value_of_lens};
ghost use Rattle.evolve.specs.LensRows.{lens_of_row};

use crate::lens::Lens;
use crate::row::LensRow;
use crate::scanning::item_at;

/// An item of a list or a set, or the key and the value of a pair of a map.
#[derive(Clone, Copy)]
pub enum LensItem<'a> {
    /// An item of a list or a set.
    One(Lens<'a>),
    /// The key and the value of a pair of a map.
    Pair(Lens<'a>, Lens<'a>),
}

/// The items of a list or a set, or the pairs of a map, in order.
#[derive(Clone, Copy)]
pub struct LensItems<'a> {
    // The items, by their places.
    row: LensRow<'a>,
    // The place of the next one.
    next: u64,
    // The place behind the last one.
    end: u64,
    ghost items: { ∥ IsItems (value_of_lens (lens_of_row row)) ∥₁ },
    ghost within: { end ≤ count (items_of (value_of_lens (lens_of_row row))) },
}

impl<'a> LensItems<'a> {
    ghost use Rattle.std.specs.Prelude.{IfSome};
    ghost use Rattle.evolve.specs.Lenses.{type_of_lens};
    ghost use Rattle.evolve.specs.LensItems.{from_to, items_left, type_left, IsNext, IsItemOf};

    /// The items of a list, a set or a map from one place up to another.
    pub(crate) fn of(whole: Lens<'a>, first: u64, end: u64) -> LensItems<'a>
        requires { IsItems (value_of_lens whole) }
        ensures items { items_left result ≡ from_to (items_of (value_of_lens whole.entry)) first end }
        ensures typed { type_left result ≡ type_of_lens whole.entry }
    {
        LensItems {
            row: whole.row(),
            next: first,
            end: end.min(whole.len()),
        }
    }

    /// The next item. `None` where none is left. It takes no memory.
    pub fn next(&mut self) -> Option<LensItem<'a>>
        ensures next { IsNext (items_left self.old) result (items_left self.new) }
        ensures typed { type_left self.new ≡ type_left self.old }
        ensures form { IfSome result (IsItemOf (type_left self.old)) }
    {
        if self.next >= self.end {
            return None;
        }
        let place = self.next;
        self.next += 1;
        Some(item_at(self.row, place))
    }
}
