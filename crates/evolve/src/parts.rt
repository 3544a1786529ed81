//! From a lens to lenses on the parts of its part. None of the calls takes memory.
ghost use Rattle.std.specs.Prelude.{◌≡◌, ◌≢◌, ◌<◌, Some, IsSome, IfSome, option_map, option_and_then, find};
ghost use Rattle.std.specs.List.{Contains};
ghost use Rattle.std.specs.Ordering.{int_eq};
ghost use Rattle.std.specs.Str.{IsUtf8};
ghost use Rattle.idl_profile.specs.Types.{fields_of};
ghost use Rattle.idl_profile.specs.declared.kinds.Need.TheVariants.{Optional};
ghost use Rattle.idl_parse.specs.Refs.{field_of_ref, element_of, key_of, value_of};
ghost use Rattle.frozen_model.specs.Values.{Of, count, nth, key_of as first_of};
ghost use Rattle.type_kinds.specs.KindsOf.{kinds_of};
ghost use Rattle.type_kinds.specs.Accepted.{IsAccepted, HasShortTexts};
ghost use Rattle.typed_tree.specs.Parts.{IsItems, IsRow, IsMap, items_of, field_of};
ghost use Rattle.typed_tree.specs.Sizes.{default_value};
ghost use Rattle.typed_tree.specs.Spots.{pair};
ghost use Rattle.bit_view.specs.Views.{value_of_view, layout_of_view, is_relaxed};
ghost use Rattle.evolve.specs.Binding.{Binds, BindsField};
ghost use Rattle.evolve.specs.Parts.{held};
ghost use Rattle.evolve.specs.Projection.{proj, found_or};
ghost use Rattle.evolve.specs.Lenses.{type_of_lens, value_of_lens};
ghost use Rattle.evolve.specs.LensRows.{lens_of_row};

use crate::lens::{Lacked, Lens, Stored};
use crate::row::LensRow;
use bit_view::View;
use thrift_idl::{FieldRef, Need};

// What a field has that the file lacks: its default; an optional one has nothing.
fn lacked<'a>(field: FieldRef<'a>) -> Option<Lens<'a>>
    requires accepted { ∥ IsAccepted IsUtf8 (field_of_ref field).type ∥₁ }
    requires short { ∥ HasShortTexts (field_of_ref field).type ∥₁ }
    requires formed { (field_of_ref field).need ≢ Optional
        → ∥ Of (kinds_of (field_of_ref field).type) (default_value (field_of_ref field)) ∥₁ }
    ensures value { option_map value_of_lens result ≡ held (default_value (field_of_ref field.entry)) }
    ensures typed { IfSome result (λ l. type_of_lens l ≡ (field_of_ref field.entry).type) }
{
    match field.need() {
        Need::Optional => None,
        Need::Plain => Some(Lens::Default(Lacked { field })),
        Need::Required => Some(Lens::Default(Lacked { field })),
    }
}

// What a field has that the file has.
fn stored<'a>(view: View<'a>, field: FieldRef<'a>) -> Option<Lens<'a>>
    requires binds { let f = field_of_ref field in
        ∥ BindsField f.need (λ l. Binds (is_relaxed view) f.type l) (Some (layout_of_view view)) ∥₁ }
    requires accepted { ∥ IsAccepted IsUtf8 (field_of_ref field).type ∥₁ }
    requires short { ∥ HasShortTexts (field_of_ref field).type ∥₁ }
    ensures value { let f = field_of_ref field.entry in option_map value_of_lens result
        ≡ held (found_or (default_value f) f.need (λ v. proj f.type v) (Some (value_of_view view.entry))) }
    ensures typed { IfSome result (λ l. type_of_lens l ≡ (field_of_ref field.entry).type) }
{
    let ty = field.ty();
    match field.need() {
        Need::Optional => {
            if view.is_set() {
                let view = view.inner();
                Some(Lens::Stored(Stored { ty, view }))
            } else {
                None
            }
        }
        Need::Plain => Some(Lens::Stored(Stored { ty, view })),
        Need::Required => Some(Lens::Stored(Stored { ty, view })),
    }
}

impl<'a> Lens<'a> {
    /// The items of a list or a set, or the pairs of a map, by their places.
    #[inline]
    pub fn row(self) -> LensRow<'a>
        requires { IsItems (value_of_lens self) }
        ensures { lens_of_row result ≡ self.entry }
    {
        LensRow::of(self)
    }

    /// An item of a list or a set, by its place from 0.
    #[inline]
    pub fn item(self, i: u64) -> Lens<'a>
        requires row { IsRow (value_of_lens self) }
        requires there { i < count (items_of (value_of_lens self)) }
        ensures value { value_of_lens result ≡ nth (items_of (value_of_lens self.entry)) i }
        ensures typed { type_of_lens result ≡ element_of (type_of_lens self.entry) }
    {
        self.row().item(i)
    }

    /// The key and the value of a pair of a map, by its place from 0.
    #[inline]
    pub fn entry(self, i: u64) -> (Lens<'a>, Lens<'a>)
        requires map { IsMap (value_of_lens self) }
        requires there { i < count (items_of (value_of_lens self)) }
        ensures value { pair (value_of_lens result.0) (value_of_lens result.1)
            ≡ nth (items_of (value_of_lens self.entry)) i }
        ensures key { type_of_lens result.0 ≡ key_of (type_of_lens self.entry) }
        ensures typed { type_of_lens result.1 ≡ value_of (type_of_lens self.entry) }
    {
        self.row().entry(i)
    }

    /// The key of a pair of a map, by its place from 0.
    #[inline]
    pub fn key(self, i: u64) -> Lens<'a>
        requires map { IsMap (value_of_lens self) }
        requires there { i < count (items_of (value_of_lens self)) }
        ensures value { value_of_lens result ≡ first_of (nth (items_of (value_of_lens self.entry)) i) }
        ensures typed { type_of_lens result ≡ key_of (type_of_lens self.entry) }
    {
        self.row().key(i)
    }

    /// A field of a struct. `None` where it is optional and not there.
    #[inline(always)]
    pub fn part(self, field: FieldRef<'a>) -> Option<Lens<'a>>
        requires { Contains (fields_of (type_of_lens self)) (field_of_ref field) }
        ensures value { option_map value_of_lens result
            ≡ option_and_then held (field_of (value_of_lens self.entry) (field_of_ref field.entry).id) }
        ensures typed { IfSome result (λ l. type_of_lens l ≡ (field_of_ref field.entry).type) }
    {
        match self {
            Lens::Stored(whole) => match whole.view.field(field.id()) {
                Some(view) => stored(view, field),
                None => lacked(field),
            },
            Lens::Default(_) => lacked(field),
        }
    }

    /// A field of a struct by its id. `None` where it is optional and not there.
    pub fn field(self, id: i16) -> Option<Lens<'a>>
        requires { IsSome (field_of (value_of_lens self) id) }
        ensures value { option_map value_of_lens result
            ≡ option_and_then held (field_of (value_of_lens self.entry) id) }
        ensures typed { IfSome result (λ l. Some (type_of_lens l) ≡ option_map (λ f. f.type)
            (find (λ f. int_eq f.id id) (fields_of (type_of_lens self.entry)))) }
    {
        match self.ty().field(id) {
            Some(field) => self.part(field),
            None => None,
        }
    }
}
