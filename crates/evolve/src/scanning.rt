//! Going over the items of a part.
ghost use Rattle.std.specs.Prelude.{◌≡◌, ◌<◌};
ghost use Rattle.frozen_model.specs.Values.{count, nth};
ghost use Rattle.typed_tree.specs.Parts.{IsItems, items_of};
ghost use Rattle.evolve.specs.Lenses.{type_of_lens, value_of_lens};
ghost use Rattle.evolve.specs.LensRows.{lens_of_row};
ghost use Rattle.evolve.specs.LensItems.{from_to, items_left, type_left, value_of_item, IsItemOf};

use crate::items::{LensItem, LensItems};
use crate::lens::Lens;
use crate::row::LensRow;
use thrift_idl::TypeKind;

/// The items of a list or a set, or the pairs of a map, from the first on. It takes no memory.
pub fn scan<'a>(from: Lens<'a>) -> LensItems<'a>
    requires { IsItems (value_of_lens from) }
    ensures items { items_left result ≡ items_of (value_of_lens from.entry) }
    ensures typed { type_left result ≡ type_of_lens from.entry }
{
    LensItems::of(from, 0, from.len())
}

/// The items of a list or a set, or the pairs of a map, at the places from `first` up to `end`, which is not
/// among them; places are counted from 0, and past the last there is none. It takes no memory.
pub fn scan_places<'a>(from: Lens<'a>, first: u64, end: u64) -> LensItems<'a>
    requires { IsItems (value_of_lens from) }
    ensures items { items_left result ≡ from_to (items_of (value_of_lens from.entry)) first end }
    ensures typed { type_left result ≡ type_of_lens from.entry }
{
    LensItems::of(from, first, end)
}

// An item by its place from 0: one part of a list or a set, and two of a map.
#[inline]
pub(crate) fn item_at<'a>(row: LensRow<'a>, place: u64) -> LensItem<'a>
    requires items { IsItems (value_of_lens (lens_of_row row)) }
    requires there { place < count (items_of (value_of_lens (lens_of_row row))) }
    ensures value { value_of_item result ≡ nth (items_of (value_of_lens (lens_of_row row.entry))) place }
    ensures form { IsItemOf (type_of_lens (lens_of_row row.entry)) result }
{
    match row.ty().kind() {
        TypeKind::Map => {
            let (key, value) = row.entry(place);
            LensItem::Pair(key, value)
        }
        _ => LensItem::One(row.item(place)),
    }
}
