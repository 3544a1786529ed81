//! What a view tells of its own value.

ghost use Rattle.std.specs.Prelude.{◌≡◌, ◌+◌, ◌↔◌, IsTrue, Some};
ghost use Rattle.frozen_model.specs.Bits.{field};
ghost use Rattle.frozen_model.specs.Values.{Value, Truth, Number, One, Bytes, count};
ghost use Rattle.frozen_laws.specs.Laws.{IsContent};
ghost use Rattle.layout_tree.specs.Nodes.{layout_of, IsSettled};
ghost use Rattle.layout_tree.specs.Reading.{plain, kind_at, IsRange, distance_width, count_width};
ghost use Rattle.typed_tree.specs.Parts.{IsFlag, IsInt, IsText, IsBytes, IsItems, IsPresent, items_of};
ghost use Rattle.bit_view.specs.Views.{value_of_view, layout_of_view, kind_of_view, is_relaxed};
ghost use Rattle.bit_view.specs.Views.{IsOption, HasForm};

use crate::view::View;
use bit_field::{read_bits, read_signed};
use layout_tree::{Kind, Layouts, layouts_are_described};
use std::str;

impl<'a> View<'a> {
    /// The view of the whole value that a content packs.
    pub fn new(content: &'a [u8], layouts: &'a Layouts) -> View<'a>
        requires settled { ∥ IsSettled layouts.now ∥₁ }
        requires held { ∥ ((v : Value) × IsContent (layout_of layouts.now).tree v content.now) ∥₁ }
        ensures value { (v : Value) → IsContent (layout_of layouts.now).tree v content.now
            → value_of_view result ≡ v }
        ensures layout { layout_of_view result ≡ (layout_of layouts.now).tree }
        ensures relaxed { is_relaxed result ≡ (layout_of layouts.now).relaxed }
    {
        layouts_are_described(layouts);
        View {
            content,
            layouts,
            node: 0,
            block: 0,
            bit: 0,
        }
    }

    /// The kind of the part. A struct that is the item of a map is a pair, and any other is a struct.
    #[inline]
    pub fn kind(self) -> Kind
        ensures kind { plain result ≡ kind_at (layout_of_view self.entry) }
        ensures told { kind_of_view self.entry ≡ Some result }
        ensures form { HasForm result (value_of_view self.entry) }
    {
        self.layouts.kind(self.node)
    }

    /// Whether a flag is set.
    #[inline]
    pub fn flag(self) -> bool
        requires { IsFlag (value_of_view self) }
        ensures { value_of_view self.entry ≡ One (Truth result) }
    {
        read_bits(self.content, self.bit, self.layouts.bits(self.node)) == 1
    }

    /// A number.
    #[inline]
    pub fn int(self) -> i64
        requires { IsInt (value_of_view self) }
        ensures { value_of_view self.entry ≡ One (Number result) }
    {
        let layouts = self.layouts;
        layouts_are_described(layouts);
        let width = layouts.bits(self.node);
        if layouts.version() == 2 {
            let above = read_bits(self.content, self.bit, width);
            (i128::from(layouts.base(self.node)) + i128::from(above)) as i64
        } else {
            read_signed(self.content, self.bit, width)
        }
    }

    /// Whether an optional is there.
    #[inline]
    pub fn is_set(self) -> bool
        requires { IsOption (value_of_view self) }
        ensures { IsTrue result ↔ IsPresent (value_of_view self.entry) }
    {
        read_bits(self.content, self.bit, self.layouts.isset_bits(self.node)) == 1
    }

    // The byte at which the own block of a range begins.
    #[inline]
    pub(crate) fn own_block(self) -> u64
        requires { IsRange (layout_of_view self) }
        ensures { result ≡ self.entry.block
            + field self.entry.content.now self.entry.bit (distance_width (layout_of_view self.entry)) }
    {
        let width = self.layouts.distance_bits(self.node);
        self.block + read_bits(self.content, self.bit, width)
    }

    // The count of a range.
    #[inline]
    pub(crate) fn count(self) -> u64
        requires { IsRange (layout_of_view self) }
        ensures { let l = layout_of_view self.entry in
            result ≡ field self.entry.content.now (self.entry.bit + distance_width l) (count_width l) }
    {
        let bit = self.bit + u64::from(self.layouts.distance_bits(self.node));
        read_bits(self.content, bit, self.layouts.count_bits(self.node))
    }

    /// Bytes, or the UTF-8 of a text: the slice of the content that holds them.
    #[inline]
    pub fn bytes(self) -> &'a [u8]
        requires { IsBytes (value_of_view self) }
        ensures { value_of_view self.entry ≡ Bytes result.now }
    {
        let start = self.own_block() as usize;
        let end = start + self.count() as usize;
        &self.content[start..end]
    }

    /// A text: the slice of the content that holds it.
    #[inline]
    pub fn text(self) -> &'a str
        requires { IsText (value_of_view self) }
        ensures { value_of_view self.entry ≡ Bytes result.now }
    {
        unsafe { str::from_utf8_unchecked(self.bytes()) }
    }

    /// How many items a list or a set has, or pairs a map.
    #[inline]
    pub fn len(self) -> u64
        requires { IsItems (value_of_view self) }
        ensures { result ≡ count (items_of (value_of_view self.entry)) }
    {
        self.count()
    }
}
