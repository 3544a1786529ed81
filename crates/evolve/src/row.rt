//! The items of a part by their places. None of the calls takes memory.
ghost use Rattle.std.specs.Prelude.{◌≡◌};
ghost use Rattle.bit_view.specs.Rows.{view_of_row};

use crate::lens::{Lacked, Lens, Stored};
use bit_view::Row;
use thrift_idl::TypeRef;

/// The items of a list or a set, or the pairs of a map, by their places. It keeps what all of them share, so
/// that each is found by a product and a sum.
#[derive(Clone, Copy)]
pub enum LensRow<'a> {
    /// The file has them.
    Stored(StoredRow<'a>),
    /// A default, which has none.
    Default(Lacked<'a>),
}

/// The items of a part that the file has.
#[derive(Clone, Copy)]
pub struct StoredRow<'a> {
    pub(crate) whole: Stored<'a>,
    pub(crate) row: Row<'a>,
    ghost same: { view_of_row row ≡ whole.view },
}

impl<'a> LensRow<'a> {
    ghost use Rattle.std.specs.Prelude.{◌<◌};
    ghost use Rattle.idl_parse.specs.Refs.{type_of_ref, element_of, key_of, value_of};
    ghost use Rattle.frozen_model.specs.Values.{count, nth, key_of as first_of};
    ghost use Rattle.typed_tree.specs.Parts.{IsItems, IsRow, IsMap, items_of};
    ghost use Rattle.typed_tree.specs.Spots.{pair};
    ghost use Rattle.evolve.specs.LensRows.{lens_of_row};
    ghost use Rattle.evolve.specs.Lenses.{type_of_lens, value_of_lens};

    /// The items of a list, a set or a map.
    #[inline]
    pub(crate) fn of(whole: Lens<'a>) -> LensRow<'a>
        requires { IsItems (value_of_lens whole) }
        ensures { lens_of_row result ≡ whole.entry }
    {
        match whole {
            Lens::Stored(stored) => LensRow::Stored(StoredRow {
                whole: stored,
                row: stored.view.row(),
            }),
            Lens::Default(lacked) => LensRow::Default(lacked),
        }
    }

    /// The type of the list, set or map.
    #[inline]
    pub fn ty(self) -> TypeRef<'a>
        ensures { type_of_ref result ≡ type_of_lens (lens_of_row self.entry) }
    {
        match self {
            LensRow::Stored(stored) => stored.whole.ty,
            LensRow::Default(lacked) => lacked.field.ty(),
        }
    }

    /// An item of a list or a set, by its place from 0.
    #[inline(always)]
    pub fn item(self, i: u64) -> Lens<'a>
        requires row { IsRow (value_of_lens (lens_of_row self)) }
        requires there { i < count (items_of (value_of_lens (lens_of_row self))) }
        ensures value { value_of_lens result ≡ nth (items_of (value_of_lens (lens_of_row self.entry))) i }
        ensures typed { type_of_lens result ≡ element_of (type_of_lens (lens_of_row self.entry)) }
    {
        match self {
            LensRow::Stored(stored) => Lens::Stored(Stored {
                ty: stored.whole.ty.element(),
                view: stored.row.item(i),
            }),
            LensRow::Default(_) => unreachable!(),
        }
    }

    /// The key and the value of a pair of a map, by its place from 0.
    #[inline(always)]
    pub fn entry(self, i: u64) -> (Lens<'a>, Lens<'a>)
        requires map { IsMap (value_of_lens (lens_of_row self)) }
        requires there { i < count (items_of (value_of_lens (lens_of_row self))) }
        ensures value { pair (value_of_lens result.0) (value_of_lens result.1)
            ≡ nth (items_of (value_of_lens (lens_of_row self.entry))) i }
        ensures key { type_of_lens result.0 ≡ key_of (type_of_lens (lens_of_row self.entry)) }
        ensures typed { type_of_lens result.1 ≡ value_of (type_of_lens (lens_of_row self.entry)) }
    {
        match self {
            LensRow::Stored(stored) => {
                let ty = stored.whole.ty;
                let pair = stored.row.item(i);
                (
                    Lens::Stored(Stored {
                        ty: ty.key(),
                        view: pair.first(),
                    }),
                    Lens::Stored(Stored {
                        ty: ty.value(),
                        view: pair.second(),
                    }),
                )
            }
            LensRow::Default(_) => unreachable!(),
        }
    }

    /// The key of a pair of a map, by its place from 0.
    #[inline(always)]
    pub fn key(self, i: u64) -> Lens<'a>
        requires map { IsMap (value_of_lens (lens_of_row self)) }
        requires there { i < count (items_of (value_of_lens (lens_of_row self))) }
        ensures value { value_of_lens result
            ≡ first_of (nth (items_of (value_of_lens (lens_of_row self.entry))) i) }
        ensures typed { type_of_lens result ≡ key_of (type_of_lens (lens_of_row self.entry)) }
    {
        match self {
            LensRow::Stored(stored) => Lens::Stored(Stored {
                ty: stored.whole.ty.key(),
                view: stored.row.item(i).first(),
            }),
            LensRow::Default(_) => unreachable!(),
        }
    }
}
