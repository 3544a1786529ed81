//! How many cells a value of a type of a definition has.
ghost use Rattle.std.specs.Prelude.{◌≡◌, ◌+◌, length};
ghost use Rattle.frozen_model.specs.Trees.{Optional};
ghost use Rattle.idl_profile.specs.Types.{kind_of};
ghost use Rattle.idl_parse.specs.Refs.{type_of_ref, field_of_ref};
ghost use Rattle.frozen_model.specs.Values.{Of, OfEach, cells as cells_of, cells_each};
ghost use Rattle.type_kinds.specs.KindsOf.{kinds_of};
ghost use Rattle.typed_tree.specs.Parts.{IsRow, IsMap, items_of};
ghost use Rattle.typed_tree.specs.References.{value_of_ref};
ghost use Rattle.typed_tree.specs.Sizes.{capped, field_kinds};
ghost use Rattle.typed_tree.specs.Ranges.{pair_kinds, CellsByRanges};

use crate::sizes::inline_cells;
use crate::tree::{TreeKind, TreeRef};
use thrift_idl::{FieldRef, Need, TypeKind, TypeRef};

/// The cells of a value of the type, and 2^64 - 1 where they are more. It goes as deep as the type, and takes a step
/// for each item, pair and field.
#[cycle(values)]
pub fn cells(ty: TypeRef<'_>, value: TreeRef<'_>) -> u64
    requires { Of (kinds_of (type_of_ref ty)) (value_of_ref value) }
    ensures { result ≡ capped (cells_of (kinds_of (type_of_ref ty.entry)) (value_of_ref value.entry)) }
{
    match ty.kind() {
        TypeKind::Flag => 1,
        TypeKind::I8 => 1,
        TypeKind::I16 => 1,
        TypeKind::I32 => 1,
        TypeKind::I64 => 1,
        TypeKind::Enum => 1,
        TypeKind::Text => byte_cells(value.bytes()),
        TypeKind::Bytes => byte_cells(value.bytes()),
        TypeKind::List => row_cells(ty.element(), value),
        TypeKind::Set => row_cells(ty.element(), value),
        TypeKind::Map => map_cells(ty.key(), ty.value(), value),
        TypeKind::Struct => record_cells(ty, value),
    }
}

// The cells of a text or binary.
fn byte_cells(bytes: &[u8]) -> u64
    ensures { result ≡ capped (2 + length bytes.now) }
{
    (bytes.len() as u64).saturating_add(2)
}

// The cells of a list or a set, whose items are of the type.
#[cycle(values)]
fn row_cells(element: TypeRef<'_>, row: TreeRef<'_>) -> u64
    requires row { IsRow (value_of_ref row) }
    requires items { OfEach (kinds_of (type_of_ref element)) (items_of (value_of_ref row)) }
    ensures { let items = items_of (value_of_ref row.entry) in
        result ≡ capped (2 + cells_each (kinds_of (type_of_ref element.entry)) items) }
{
    let mut total = 2u64;
    for i in 0..row.len() {
        let item = cells(element, row.item(i));
        total = total.saturating_add(item.saturating_add(1));
    }
    total
}

// The cells of a map, whose keys and values are of these types.
#[cycle(values)]
fn map_cells(key: TypeRef<'_>, value: TypeRef<'_>, map: TreeRef<'_>) -> u64
    requires map { IsMap (value_of_ref map) }
    requires items { let kinds = pair_kinds (kinds_of (type_of_ref key)) (kinds_of (type_of_ref value)) in
        OfEach kinds (items_of (value_of_ref map)) }
    ensures { let kinds = pair_kinds (kinds_of (type_of_ref key.entry)) (kinds_of (type_of_ref value.entry)) in
        result ≡ capped (2 + cells_each kinds (items_of (value_of_ref map.entry))) }
{
    let mut total = 2u64;
    for i in 0..map.len() {
        let (first, second) = map.entry(i);
        let first_cells = cells(key, first);
        let second_cells = cells(value, second);
        let pair = first_cells.saturating_add(second_cells);
        total = total.saturating_add(pair.saturating_add(1));
    }
    total
}

// The cells of all fields of a struct.
#[cycle(values)]
fn record_cells(ty: TypeRef<'_>, value: TreeRef<'_>) -> u64
    requires kind { kind_of (type_of_ref ty) ≡ TypeKind.Struct }
    requires value { Of (kinds_of (type_of_ref ty)) (value_of_ref value) }
    ensures { result ≡ capped (cells_of (kinds_of (type_of_ref ty.entry)) (value_of_ref value.entry)) }
{
    let mut total = 0u64;
    for i in 0..ty.field_count() {
        let field = field_value_cells(ty.field_at(i), value.field_at(u64::from(i)));
        total = total.saturating_add(field);
    }
    total
}

// The cells of a field's value: an optional has one for whether it is there, and where it is absent the inline ones.
#[cycle(values)]
fn field_value_cells(field: FieldRef<'_>, value: TreeRef<'_>) -> u64
    requires { let f = field_of_ref field in Of (field_kinds f.need f.type) (value_of_ref value) }
    ensures { let f = field_of_ref field.entry in
        result ≡ capped (cells_of (field_kinds f.need f.type) (value_of_ref value.entry)) }
{
    match field.need() {
        Need::Optional => optional_cells(field.ty(), value),
        Need::Plain => cells(field.ty(), value),
        Need::Required => cells(field.ty(), value),
    }
}

// The cells of an optional of the type.
#[cycle(values)]
fn optional_cells(ty: TypeRef<'_>, value: TreeRef<'_>) -> u64
    requires { Of (Optional tt (kinds_of (type_of_ref ty))) (value_of_ref value) }
    ensures { let kinds = Optional tt (kinds_of (type_of_ref ty.entry)) in
        result ≡ capped (cells_of kinds (value_of_ref value.entry)) }
{
    let inside = match value.kind() {
        TreeKind::Present => cells(ty, value.inner()),
        _ => inline_cells(ty),
    };
    inside.saturating_add(1)
}

/// The cells of a value of a type are the type's inline cells and, over the value's ranges, the count times the unit.
pub fn cells_by_ranges()
    ensures { CellsByRanges }
{}
