//! How many cells the types of definitions have inline, and what room their defaults use.
ghost use Rattle.std.specs.Prelude.{◌≡◌};
ghost use Rattle.idl_profile.specs.Types.{kind_of};
ghost use Rattle.idl_parse.specs.Refs.{type_of_ref, field_of_ref};
ghost use Rattle.frozen_model.specs.Values.{inline_cells as cells_inline, cells as cells_of};
ghost use Rattle.type_kinds.specs.KindsOf.{kinds_of};
ghost use Rattle.typed_tree.specs.Sizes.{capped, capped_room, field_kinds, used_by, default_value, cells_of_default};
ghost use Rattle.type_kinds.specs.Defaults.{default_of, written};

use crate::room::Room;
use thrift_idl::{DefaultRef, FieldRef, Need, TypeKind, TypeRef};

/// The cells that a value of the type has inline, and 2^64 - 1 where they are more. It goes as deep as the type.
#[cycle(inline)]
pub fn inline_cells(ty: TypeRef<'_>) -> u64
    ensures { result ≡ capped (cells_inline (kinds_of (type_of_ref ty.entry))) }
{
    match ty.kind() {
        TypeKind::Flag => 1,
        TypeKind::I8 => 1,
        TypeKind::I16 => 1,
        TypeKind::I32 => 1,
        TypeKind::I64 => 1,
        TypeKind::Enum => 1,
        TypeKind::Text => 2,
        TypeKind::Bytes => 2,
        TypeKind::List => 2,
        TypeKind::Set => 2,
        TypeKind::Map => 2,
        TypeKind::Struct => struct_cells(ty),
    }
}

// The cells of all fields of a struct.
#[cycle(inline)]
fn struct_cells(ty: TypeRef<'_>) -> u64
    requires { kind_of (type_of_ref ty) ≡ TypeKind.Struct }
    ensures { result ≡ capped (cells_inline (kinds_of (type_of_ref ty.entry))) }
{
    let mut cells = 0u64;
    for i in 0..ty.field_count() {
        cells = cells.saturating_add(field_cells(ty.field_at(i)));
    }
    cells
}

// The cells of a field: an optional has one more than its type.
#[cycle(inline)]
fn field_cells(field: FieldRef<'_>) -> u64
    ensures { let f = field_of_ref field.entry in result ≡ capped (cells_inline (field_kinds f.need f.type)) }
{
    let inline = inline_cells(field.ty());
    match field.need() {
        Need::Optional => inline.saturating_add(1),
        Need::Plain => inline,
        Need::Required => inline,
    }
}

/// The nodes, and the bytes of texts and binaries, of what the field has that nobody gave; a number above 2^64 - 1 is
/// answered as that. It goes as deep as the type.
#[cycle(room)]
pub fn default_room(field: FieldRef<'_>) -> Room
    ensures { result ≡ capped_room (used_by (default_value (field_of_ref field.entry))) }
{
    match field.need() {
        Need::Optional => Room::ONE_NODE,
        Need::Plain => written_room(field),
        Need::Required => written_room(field),
    }
}

// The room of a written default, and else of the type's own.
#[cycle(room)]
fn written_room(field: FieldRef<'_>) -> Room
    ensures { let f = field_of_ref field.entry in
        result ≡ capped_room (used_by (written f.default (default_of f.type))) }
{
    match field.default() {
        DefaultRef::Flag(_) => Room::ONE_NODE,
        DefaultRef::Int(_) => Room::ONE_NODE,
        DefaultRef::Text(x) => Room {
            nodes: 1,
            bytes: x.len() as u64,
        },
        DefaultRef::Without => type_room(field.ty()),
        DefaultRef::Empty => type_room(field.ty()),
    }
}

/// The room of a type's own default.
#[cycle(room)]
pub(crate) fn type_room(ty: TypeRef<'_>) -> Room
    ensures { result ≡ capped_room (used_by (default_of (type_of_ref ty.entry))) }
{
    match ty.kind() {
        TypeKind::Flag => Room::ONE_NODE,
        TypeKind::I8 => Room::ONE_NODE,
        TypeKind::I16 => Room::ONE_NODE,
        TypeKind::I32 => Room::ONE_NODE,
        TypeKind::I64 => Room::ONE_NODE,
        TypeKind::Enum => Room::ONE_NODE,
        TypeKind::Text => Room::ONE_NODE,
        TypeKind::Bytes => Room::ONE_NODE,
        TypeKind::List => Room::ONE_NODE,
        TypeKind::Set => Room::ONE_NODE,
        TypeKind::Map => Room::ONE_NODE,
        TypeKind::Struct => struct_room(ty),
    }
}

// The room of a struct: its own node and its fields'.
#[cycle(room)]
fn struct_room(ty: TypeRef<'_>) -> Room
    requires { kind_of (type_of_ref ty) ≡ TypeKind.Struct }
    ensures { result ≡ capped_room (used_by (default_of (type_of_ref ty.entry))) }
{
    let mut room = Room::ONE_NODE;
    for i in 0..ty.field_count() {
        room = room.and(default_room(ty.field_at(i)));
    }
    room
}

/// The cells of what the field has that nobody gave, and 2^64 - 1 where they are more. It goes as deep as the type.
#[cycle(cells)]
pub fn default_cells(field: FieldRef<'_>) -> u64
    ensures { result ≡ capped (cells_of_default (field_of_ref field.entry)) }
{
    match field.need() {
        Need::Optional => inline_cells(field.ty()).saturating_add(1),
        Need::Plain => written_cells(field),
        Need::Required => written_cells(field),
    }
}

// The cells of a written default, and else of the type's own.
#[cycle(cells)]
fn written_cells(field: FieldRef<'_>) -> u64
    ensures { let f = field_of_ref field.entry in
        result ≡ capped (cells_of (kinds_of f.type) (written f.default (default_of f.type))) }
{
    match field.default() {
        DefaultRef::Flag(_) => 1,
        DefaultRef::Int(_) => 1,
        DefaultRef::Text(x) => (x.len() as u64).saturating_add(2),
        DefaultRef::Without => type_cells(field.ty()),
        DefaultRef::Empty => type_cells(field.ty()),
    }
}

// The cells of a type's own default.
#[cycle(cells)]
fn type_cells(ty: TypeRef<'_>) -> u64
    ensures { let t = type_of_ref ty.entry in result ≡ capped (cells_of (kinds_of t) (default_of t)) }
{
    match ty.kind() {
        TypeKind::Flag => 1,
        TypeKind::I8 => 1,
        TypeKind::I16 => 1,
        TypeKind::I32 => 1,
        TypeKind::I64 => 1,
        TypeKind::Enum => 1,
        TypeKind::Text => 2,
        TypeKind::Bytes => 2,
        TypeKind::List => 2,
        TypeKind::Set => 2,
        TypeKind::Map => 2,
        TypeKind::Struct => field_defaults_cells(ty),
    }
}

// The cells of the defaults of all fields of a struct.
#[cycle(cells)]
fn field_defaults_cells(ty: TypeRef<'_>) -> u64
    requires { kind_of (type_of_ref ty) ≡ TypeKind.Struct }
    ensures { let t = type_of_ref ty.entry in result ≡ capped (cells_of (kinds_of t) (default_of t)) }
{
    let mut cells = 0u64;
    for i in 0..ty.field_count() {
        cells = cells.saturating_add(default_cells(ty.field_at(i)));
    }
    cells
}
