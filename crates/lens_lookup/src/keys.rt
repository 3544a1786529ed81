//! The keys of a set or a map in a file, read where they stand.
ghost use Rattle.std.specs.Prelude.{◌≡◌, ◌<◌, true, false};
ghost use Rattle.idl_profile.specs.Types.{kind_of};
ghost use Rattle.idl_parse.specs.Refs.{type_of_ref};
ghost use Rattle.frozen_model.specs.Values.{count, nth, key_of};
ghost use Rattle.typed_tree.specs.Parts.{items_of};
ghost use Rattle.type_kinds.specs.Accepted.{IsKeyType};
ghost use Rattle.path_text.specs.Views.{key_of_literal};
ghost use Rattle.key_order.specs.Keys.{value_of};
ghost use Rattle.evolve.specs.Lenses.{type_of_lens, value_of_lens};
ghost use Rattle.evolve.specs.LensRows.{lens_of_row};
ghost use Rattle.lens_lookup.specs.KeySorts.{is_keyed, is_sort_of, key_type};
ghost use Rattle.lens_lookup.specs.Sought.{SoughtKey, sought, value_of_key, keys_in, sought_cmp};
ghost use Rattle.lens_lookup.specs.SoughtOrder.{sought_order};

use evolve::{Lens, LensRow};
use fz_base::Steps;
use key_lookup::Keys;
use key_order::Key;
use path_text::KeyLit;
use std::cmp::Ordering;
use std::sync::ledger::Ledger;
use thrift_idl::{TypeKind, TypeRef};

// What keys are read as: numbers, flags, or the bytes of texts and binaries.
#[derive(Clone, Copy)]
pub(crate) enum KeySort {
    Number,
    Flag,
    Bytes,
}

// What keys of a type are read as.
fn sort_of(keys: TypeRef<'_>) -> KeySort
    requires { IsKeyType (type_of_ref keys) }
    ensures { is_sort_of result (kind_of (type_of_ref keys.entry)) ≡ true }
{
    match keys.kind() {
        TypeKind::Flag => KeySort::Flag,
        TypeKind::Text | TypeKind::Bytes => KeySort::Bytes,
        TypeKind::I8 | TypeKind::I16 | TypeKind::I32 | TypeKind::I64 | TypeKind::Enum =>
            KeySort::Number,
        TypeKind::List | TypeKind::Set | TypeKind::Map | TypeKind::Struct => unreachable!(),
    }
}

// A key literal as a key.
fn literal_key(literal: &KeyLit) -> Key<'_>
    ensures { value_of result ≡ value_of_key (sought (key_of_literal literal.now)) }
{
    match literal {
        KeyLit::Int(number) => Key::Number(*number),
        KeyLit::Flag(flag) => Key::Flag(*flag),
        KeyLit::Text(text) => Key::Bytes(text.as_bytes()),
        KeyLit::Bytes(bytes) => Key::Bytes(bytes.as_slice()),
    }
}

// The items of a set, or the keys of a map, as keys to search in.
#[derive(Clone, Copy)]
pub(crate) struct LensKeys<'a> {
    // The items or pairs, by their places.
    row: LensRow<'a>,
    // How many there are.
    len: u64,
    // Whether it is a map; otherwise a set.
    map: bool,
    sort: KeySort,
    ghost keyed: { is_keyed map (kind_of (type_of_lens (lens_of_row row))) ≡ true },
    ghost counted: { len ≡ count (items_of (value_of_lens (lens_of_row row))) },
    ghost sorted: { is_sort_of sort (kind_of (key_type map (type_of_lens (lens_of_row row)))) ≡ true },
}

impl<'a> LensKeys<'a> {
    ghost use Rattle.idl_profile.specs.declared.kinds.TypeKind.TheVariants.{Set, Map};
    ghost use Rattle.lens_lookup.specs.LensKeys.{values_searched};

    /// The items of a set as keys.
    pub(crate) fn of_set(whole: Lens<'a>) -> LensKeys<'a>
        requires { kind_of (type_of_lens whole) ≡ Set }
        ensures { values_searched result ≡ items_of (value_of_lens whole.entry) }
    {
        LensKeys {
            row: whole.row(),
            len: whole.len(),
            map: false,
            sort: sort_of(whole.ty().element()),
        }
    }

    /// The keys of a map.
    pub(crate) fn of_map(whole: Lens<'a>) -> LensKeys<'a>
        requires { kind_of (type_of_lens whole) ≡ Map }
        ensures { values_searched result ≡ items_of (value_of_lens whole.entry) }
    {
        LensKeys {
            row: whole.row(),
            len: whole.len(),
            map: true,
            sort: sort_of(whole.ty().key()),
        }
    }

    // Where a key stands.
    #[inline(always)]
    fn part(&self, i: u64) -> Lens<'a>
        requires { i < count (values_searched self.now) }
        ensures value { value_of_lens result ≡ key_of (nth (values_searched self.now) i) }
        ensures typed { type_of_lens result
            ≡ key_type self.now.map (type_of_lens (lens_of_row self.now.row)) }
    {
        if self.map {
            self.row.key(i)
        } else {
            self.row.item(i)
        }
    }

    // A key.
    #[inline]
    fn key(&self, i: u64) -> Key<'a>
        requires { i < count (values_searched self.now) }
        ensures { value_of result ≡ key_of (nth (values_searched self.now) i) }
    {
        let part = self.part(i);
        match self.sort {
            KeySort::Number => Key::Number(part.int()),
            KeySort::Flag => Key::Flag(part.flag()),
            KeySort::Bytes => Key::Bytes(part.bytes()),
        }
    }
}

impl<L: Ledger> Keys<L> for LensKeys<'_> {
    ghost use Rattle.lens_lookup.specs.LensKeys.{values_searched};

    type Key = KeyLit;

    ghost Meaning = { SoughtKey };

    ghost meaning = { λ k. sought (key_of_literal k) };

    ghost order = { sought_cmp };

    ghost keys = { λ s. keys_in (values_searched s) };

    fn len(&self) -> u64 {
        self.len
    }

    fn compare(&self, i: u64, key: &KeyLit, steps: &mut Steps<L>) -> Ordering {
        steps.tick();
        if let (KeySort::Number, KeyLit::Int(number)) = (self.sort, key) {
            return self.part(i).int().cmp(number);
        }
        self.key(i).cmp(&literal_key(key))
    }

    ghost lawful = { sought_order };
}
