//! How many cells a part of a file has under a definition.
ghost use Rattle.std.specs.Prelude.{◌≡◌, ◌+◌, ◌*◌, ◌⊎◌, length, option_map, option_and_then, Some, IfSome};
ghost use Rattle.std.specs.List.{Contains};
ghost use Rattle.idl_profile.specs.Types.{kind_of, fields_of};
ghost use Rattle.idl_parse.specs.Refs.{field_of_ref};
ghost use Rattle.frozen_model.specs.Values.{Value, Of, cells as cells_of};
ghost use Rattle.type_kinds.specs.KindsOf.{kinds_of};
ghost use Rattle.typed_tree.specs.Parts.{field_of};
ghost use Rattle.typed_tree.specs.Sizes.{capped, field_kinds};
ghost use Rattle.evolve.specs.Parts.{held};
ghost use Rattle.evolve.specs.Lenses.{type_of_lens, value_of_lens};
ghost use Rattle.lens_values.specs.Flat.{IsLeaf};

use crate::flat::{is_flat, is_leaf};
use evolve::Lens;
use thrift_idl::{FieldRef, Need, TypeKind};
use typed_tree::inline_cells;

/// The cells of the part, and 2^64 - 1 where they are more. It takes no memory, goes as deep as the type, and
/// passes over items that all have the same cells.
#[cycle(cells)]
pub fn lens_cells(from: Lens<'_>) -> u64
    ensures { result ≡ capped (cells_of (kinds_of (type_of_lens from.entry)) (value_of_lens from.entry)) }
{
    match from.kind() {
        TypeKind::Flag => 1,
        TypeKind::I8 => 1,
        TypeKind::I16 => 1,
        TypeKind::I32 => 1,
        TypeKind::I64 => 1,
        TypeKind::Enum => 1,
        TypeKind::Text => byte_cells(from.bytes()),
        TypeKind::Bytes => byte_cells(from.bytes()),
        TypeKind::List => row_cells(from),
        TypeKind::Set => row_cells(from),
        TypeKind::Map => map_cells(from),
        TypeKind::Struct => record_cells(from),
    }
}

// The cells of a text or binary.
fn byte_cells(bytes: &[u8]) -> u64
    ensures { result ≡ capped (2 + length bytes.now) }
{
    (bytes.len() as u64).saturating_add(2)
}

// The cells of a range of so many items, each of so many cells.
fn range_cells(count: u64, item: u64) -> u64
    ensures { result ≡ capped (2 + count * (1 + item)) }
{
    item.saturating_add(1)
        .saturating_mul(count)
        .saturating_add(2)
}

// The cells of a list or a set.
#[cycle(cells)]
fn row_cells(row: Lens<'_>) -> u64
    requires { (kind_of (type_of_lens row) ≡ TypeKind.List) ⊎ (kind_of (type_of_lens row) ≡ TypeKind.Set) }
    ensures { result ≡ capped (cells_of (kinds_of (type_of_lens row.entry)) (value_of_lens row.entry)) }
{
    let element = row.ty().element();
    if is_flat(element) {
        range_cells(row.len(), inline_cells(element))
    } else {
        item_cells(row)
    }
}

// The cells of a list or a set, item by item.
#[cycle(cells)]
fn item_cells(row: Lens<'_>) -> u64
    requires { (kind_of (type_of_lens row) ≡ TypeKind.List) ⊎ (kind_of (type_of_lens row) ≡ TypeKind.Set) }
    ensures { result ≡ capped (cells_of (kinds_of (type_of_lens row.entry)) (value_of_lens row.entry)) }
{
    let mut total = 2u64;
    for i in 0..row.len() {
        let item = lens_cells(row.item(i));
        total = total.saturating_add(item.saturating_add(1));
    }
    total
}

// The cells of a map.
#[cycle(cells)]
fn map_cells(map: Lens<'_>) -> u64
    requires { kind_of (type_of_lens map) ≡ TypeKind.Map }
    ensures { result ≡ capped (cells_of (kinds_of (type_of_lens map.entry)) (value_of_lens map.entry)) }
{
    let key = map.ty().key();
    let value = map.ty().value();
    if is_flat(key) && is_flat(value) {
        let pair = inline_cells(key).saturating_add(inline_cells(value));
        range_cells(map.len(), pair)
    } else {
        pair_cells(map)
    }
}

// The cells of a map, pair by pair.
#[cycle(cells)]
fn pair_cells(map: Lens<'_>) -> u64
    requires { kind_of (type_of_lens map) ≡ TypeKind.Map }
    ensures { result ≡ capped (cells_of (kinds_of (type_of_lens map.entry)) (value_of_lens map.entry)) }
{
    let mut total = 2u64;
    for i in 0..map.len() {
        let (key, value) = map.entry(i);
        let key_cells = lens_cells(key);
        let value_cells = lens_cells(value);
        let pair = key_cells.saturating_add(value_cells);
        total = total.saturating_add(pair.saturating_add(1));
    }
    total
}

// The cells of all fields of a struct.
#[cycle(cells)]
fn record_cells(from: Lens<'_>) -> u64
    requires { kind_of (type_of_lens from) ≡ TypeKind.Struct }
    ensures { result ≡ capped (cells_of (kinds_of (type_of_lens from.entry)) (value_of_lens from.entry)) }
{
    let ty = from.ty();
    let mut total = 0u64;
    for i in 0..ty.field_count() {
        let field = ty.field_at(i);
        let cells = field_cells(from, field);
        total = total.saturating_add(cells);
    }
    total
}

// The cells of what a struct has in a field. A flag, a number or an enum is not looked for: whatever it is,
// and where it is absent, it has the same cells.
#[cycle(cells)]
fn field_cells<'a>(from: Lens<'a>, field: FieldRef<'a>) -> u64
    requires { Contains (fields_of (type_of_lens from)) (field_of_ref field) }
    ensures { (v : Value) → let f = field_of_ref field.entry in Of (field_kinds f.need f.type) v
        → option_and_then held (field_of (value_of_lens from.entry) f.id) ≡ held v
        → result ≡ capped (cells_of (field_kinds f.need f.type) v) }
{
    if is_leaf(field.ty()) {
        leaf_cells(field)
    } else {
        part_cells(field, from.part(field))
    }
}

// The cells of a flag, a number or an enum, and one more for whether an optional one is there.
#[inline]
fn leaf_cells(field: FieldRef<'_>) -> u64
    requires { IsLeaf (kinds_of (field_of_ref field).type) }
    ensures { (v : Value) → let f = field_of_ref field.entry in Of (field_kinds f.need f.type) v
        → result ≡ capped (cells_of (field_kinds f.need f.type) v) }
{
    match field.need() {
        Need::Optional => 2,
        Need::Plain => 1,
        Need::Required => 1,
    }
}

// The cells of what a field has: an optional has one for whether it is there, and where it is absent the
// inline ones.
#[cycle(cells)]
fn part_cells<'a>(field: FieldRef<'a>, part: Option<Lens<'a>>) -> u64
    requires { IfSome part (λ l. type_of_lens l ≡ (field_of_ref field).type) }
    ensures { (v : Value) → let f = field_of_ref field.entry in Of (field_kinds f.need f.type) v
        → option_map value_of_lens part.entry ≡ held v
        → result ≡ capped (cells_of (field_kinds f.need f.type) v) }
{
    match part {
        Some(there) => there_cells(field, there),
        None => inline_cells(field.ty()).saturating_add(1),
    }
}

// The cells of what a field has that is there.
#[cycle(cells)]
fn there_cells<'a>(field: FieldRef<'a>, there: Lens<'a>) -> u64
    requires { type_of_lens there ≡ (field_of_ref field).type }
    ensures { (v : Value) → let f = field_of_ref field.entry in Of (field_kinds f.need f.type) v
        → held v ≡ Some (value_of_lens there.entry)
        → result ≡ capped (cells_of (field_kinds f.need f.type) v) }
{
    let cells = lens_cells(there);
    match field.need() {
        Need::Optional => cells.saturating_add(1),
        Need::Plain => cells,
        Need::Required => cells,
    }
}
