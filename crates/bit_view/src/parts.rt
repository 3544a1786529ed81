//! From a view to views of the parts of its value.

ghost use Rattle.std.specs.Prelude.{◌≡◌, ◌<◌, ◌↔◌, Some, IsSome, IfSome, option_map};
ghost use Rattle.frozen_model.specs.Values.{Present, count, nth};
ghost use Rattle.layout_tree.specs.declared.node.Kind.TheVariants as kinds;
ghost use Rattle.layout_tree.specs.Reading.{item_of};
ghost use Rattle.typed_tree.specs.Fields.{id_number};
ghost use Rattle.typed_tree.specs.Parts.{IsItems, IsMap, IsRecord, IsPresent, items_of, fields_of, field_of};
ghost use Rattle.bit_view.specs.Branches.{inner_of, fields_in, layout_nth, field_tree};
ghost use Rattle.bit_view.specs.Cursor.{items_left};
ghost use Rattle.bit_view.specs.Rows.{view_of_row};
ghost use Rattle.bit_view.specs.Views.{value_of_view, layout_of_view, kind_of_view, is_relaxed};

use crate::items::Items;
use crate::row::Row;
use crate::view::View;

impl<'a> View<'a> {
    /// The value of an optional that is there.
    #[inline]
    pub fn inner(self) -> View<'a>
        requires { IsPresent (value_of_view self) }
        ensures value { value_of_view self.entry ≡ Present (value_of_view result) }
        ensures layout { layout_of_view result ≡ inner_of (layout_of_view self.entry) }
        ensures relaxed { is_relaxed result ≡ is_relaxed self.entry }
    {
        View {
            content: self.content,
            layouts: self.layouts,
            node: self.node + 2,
            block: self.block,
            bit: self.bit + u64::from(self.layouts.isset_bits(self.node)),
        }
    }

    /// An item of a list or a set, or a pair of a map, by its place from 0.
    #[inline]
    pub fn item(self, i: u64) -> View<'a>
        requires items { IsItems (value_of_view self) }
        requires inside { i < count (items_of (value_of_view self)) }
        ensures item { value_of_view result ≡ nth (items_of (value_of_view self.entry)) i }
        ensures pair { IsMap (value_of_view self.entry) → count (fields_of (value_of_view result)) ≡ 2 }
        ensures kind { kind_of_view result ≡ Some kinds.Pair ↔ IsMap (value_of_view self.entry) }
        ensures layout { layout_of_view result ≡ item_of (layout_of_view self.entry) }
        ensures relaxed { is_relaxed result ≡ is_relaxed self.entry }
    {
        self.row().item(i)
    }

    /// The first field of a struct, or the key of a pair.
    #[inline]
    pub fn first(self) -> View<'a>
        requires { 0 < count (fields_of (value_of_view self)) }
        ensures value { value_of_view result ≡ nth (fields_of (value_of_view self.entry)) 0 }
        ensures layout { layout_of_view result ≡ layout_nth (fields_in (layout_of_view self.entry)) 0 }
        ensures relaxed { is_relaxed result ≡ is_relaxed self.entry }
    {
        View {
            content: self.content,
            layouts: self.layouts,
            node: self.node + 1,
            block: self.block,
            bit: self.bit,
        }
    }

    /// The second field of a struct, or the value of a pair.
    #[inline]
    pub fn second(self) -> View<'a>
        requires { 1 < count (fields_of (value_of_view self)) }
        ensures value { value_of_view result ≡ nth (fields_of (value_of_view self.entry)) 1 }
        ensures layout { layout_of_view result ≡ layout_nth (fields_in (layout_of_view self.entry)) 1 }
        ensures relaxed { is_relaxed result ≡ is_relaxed self.entry }
    {
        let first = self.node + 1;
        View {
            content: self.content,
            layouts: self.layouts,
            node: self.layouts.past(first),
            block: self.block,
            bit: self.bit + u64::from(self.layouts.bits(first)),
        }
    }

    /// A field of a struct by its id. `None` exactly where the struct has none.
    #[inline]
    pub fn field(self, id: i16) -> Option<View<'a>>
        requires { IsRecord (value_of_view self) }
        ensures value { option_map value_of_view result ≡ field_of (value_of_view self.entry) id }
        ensures layout { option_map layout_of_view result
            ≡ field_tree (fields_in (layout_of_view self.entry)) (id_number id) }
        ensures relaxed { IfSome result (λ field. is_relaxed field ≡ is_relaxed self.entry) }
    {
        match self.layouts.child(self.node, id) {
            Some(node) => Some(View {
                content: self.content,
                layouts: self.layouts,
                node,
                block: self.block,
                bit: self.bit + u64::from(self.layouts.node(node).offset),
            }),
            None => None,
        }
    }

    /// A field of a struct by its id, which the struct has.
    pub fn child(self, id: i16) -> View<'a>
        requires { IsSome (field_of (value_of_view self) id) }
        ensures value { field_of (value_of_view self.entry) id ≡ Some (value_of_view result) }
        ensures layout { field_tree (fields_in (layout_of_view self.entry)) (id_number id)
            ≡ Some (layout_of_view result) }
        ensures relaxed { is_relaxed result ≡ is_relaxed self.entry }
    {
        self.field(id).unwrap()
    }

    /// The items of a list or a set, or the pairs of a map, by their places.
    #[inline]
    pub fn row(self) -> Row<'a>
        requires { IsItems (value_of_view self) }
        ensures { view_of_row result ≡ self.entry }
    {
        Row::of(self)
    }

    /// The items of a list or a set, or the pairs of a map, in order.
    #[inline]
    pub fn items(self) -> Items<'a>
        requires { IsItems (value_of_view self) }
        ensures { items_left result ≡ items_of (value_of_view self.entry) }
    {
        Items::of(self)
    }
}
