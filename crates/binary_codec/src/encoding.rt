//! Writing a value of a type in Binary Protocol.

ghost use Rattle.std.specs.Prelude.{◌≡◌, ◌<◌, ◌^◌, ◌++◌, IfOk, OnOk};
ghost use Rattle.idl_profile.specs.Types.{kind_of};
ghost use Rattle.idl_parse.specs.Refs.{type_of_ref, field_of_ref};
ghost use Rattle.frozen_model.specs.Values.{Of, OfEach, count};
ghost use Rattle.type_kinds.specs.KindsOf.{kinds_of};
ghost use Rattle.typed_tree.specs.Parts.{IsRow, IsMap, items_of};
ghost use Rattle.typed_tree.specs.References.{value_of_ref};
ghost use Rattle.typed_tree.specs.Sizes.{field_kinds};
ghost use Rattle.typed_tree.specs.Ranges.{pair_kinds};
ghost use Rattle.binary_codec.specs.BinaryEncoding.{binary, row_in_binary, map_in_binary, given_in_binary, field_in_binary};

use crate::pieces::{push_flag, push_i16, push_i32, push_i64, push_size, push_sized, type_code};
use compact_codec::push_byte;
use std::alloc::{AllocError, Global};
use thrift_idl::{FieldRef, Need, TypeKind, TypeRef};
use typed_tree::{TreeKind, TreeRef};

/// The spelling of a value of the type in Binary Protocol: fields by rising id, an absent optional left out and every
/// other field written; sets and maps in the order of their keys, and empty ones with the codes of their types. It
/// goes as deep as the type, and makes no tree of the wire.
pub fn encode_binary(alloc: Global, ty: TypeRef<'_>, v: TreeRef<'_>) -> Result<Vec<u8>, AllocError>
    requires { Of (kinds_of (type_of_ref ty)) (value_of_ref v) }
    ensures { IfOk result (λ out. out.items ≡ binary (type_of_ref ty.entry) (value_of_ref v.entry)) }
{
    let mut out = Vec::new(alloc);
    push_value(&mut out, ty, v)?;
    Ok(out)
}

#[cycle(encode)]
fn push_value(out: &mut Vec<u8>, ty: TypeRef<'_>, v: TreeRef<'_>) -> Result<(), AllocError>
    requires { Of (kinds_of (type_of_ref ty)) (value_of_ref v) }
    ensures { OnOk result (out.new.items
        ≡ out.old.items ++ binary (type_of_ref ty.entry) (value_of_ref v.entry)) }
{
    match ty.kind() {
        TypeKind::Flag => push_flag(out, v.flag()),
        TypeKind::I8 => push_byte(out, v.int()),
        TypeKind::I16 => push_i16(out, v.int()),
        TypeKind::I32 => push_i32(out, v.int()),
        TypeKind::Enum => push_i32(out, v.int()),
        TypeKind::I64 => push_i64(out, v.int()),
        TypeKind::Text => push_sized(out, v.bytes()),
        TypeKind::Bytes => push_sized(out, v.bytes()),
        TypeKind::List => push_row(out, ty.element(), v),
        TypeKind::Set => push_row(out, ty.element(), v),
        TypeKind::Map => push_map(out, ty.key(), ty.value(), v),
        TypeKind::Struct => push_fields(out, ty, v),
    }
}

// A list or a set, whose items are of the type.
#[cycle(encode)]
fn push_row(out: &mut Vec<u8>, element: TypeRef<'_>, row: TreeRef<'_>) -> Result<(), AllocError>
    requires row { IsRow (value_of_ref row) }
    requires items { OfEach (kinds_of (type_of_ref element)) (items_of (value_of_ref row)) }
    requires few { count (items_of (value_of_ref row)) < 2 ^ 31 }
    ensures { let t = type_of_ref element.entry in OnOk result (out.new.items
        ≡ out.old.items ++ row_in_binary t (binary t) (items_of (value_of_ref row.entry))) }
{
    let count = row.len();
    out.push(type_code(element))?;
    push_size(out, count as u32)?;
    for i in 0..count {
        push_value(out, element, row.item(i))?;
    }
    Ok(())
}

// A map, whose keys and values are of these types.
#[cycle(encode)]
fn push_map(
    out: &mut Vec<u8>,
    key: TypeRef<'_>,
    value: TypeRef<'_>,
    map: TreeRef<'_>,
) -> Result<(), AllocError>
    requires map { IsMap (value_of_ref map) }
    requires items { let kinds = pair_kinds (kinds_of (type_of_ref key)) (kinds_of (type_of_ref value)) in
        OfEach kinds (items_of (value_of_ref map)) }
    requires few { count (items_of (value_of_ref map)) < 2 ^ 31 }
    ensures { let k = type_of_ref key.entry in let v = type_of_ref value.entry in OnOk result (out.new.items
        ≡ out.old.items ++ map_in_binary k v (binary k) (binary v) (items_of (value_of_ref map.entry))) }
{
    let count = map.len();
    out.push(type_code(key))?;
    out.push(type_code(value))?;
    push_size(out, count as u32)?;
    for i in 0..count {
        let (first, second) = map.entry(i);
        push_value(out, key, first)?;
        push_value(out, value, second)?;
    }
    Ok(())
}

// The fields of a struct, and the byte that ends them.
#[cycle(encode)]
fn push_fields(out: &mut Vec<u8>, ty: TypeRef<'_>, v: TreeRef<'_>) -> Result<(), AllocError>
    requires kind { kind_of (type_of_ref ty) ≡ TypeKind.Struct }
    requires value { Of (kinds_of (type_of_ref ty)) (value_of_ref v) }
    ensures { OnOk result (out.new.items
        ≡ out.old.items ++ binary (type_of_ref ty.entry) (value_of_ref v.entry)) }
{
    for i in 0..ty.field_count() {
        push_field(out, ty.field_at(i), v.field_at(u64::from(i)))?;
    }
    out.push(0)?;
    Ok(())
}

// A field with its value. An optional that is not present is left out.
#[cycle(encode)]
fn push_field(out: &mut Vec<u8>, field: FieldRef<'_>, v: TreeRef<'_>) -> Result<(), AllocError>
    requires { let f = field_of_ref field in Of (field_kinds f.need f.type) (value_of_ref v) }
    ensures { let f = field_of_ref field.entry in OnOk result (out.new.items
        ≡ out.old.items ++ field_in_binary f.need f.type f.id (binary f.type) (value_of_ref v.entry)) }
{
    match field.need() {
        Need::Optional => match v.kind() {
            TreeKind::Present => push_given(out, field, v.inner()),
            _ => Ok(()),
        },
        Need::Plain => push_given(out, field, v),
        Need::Required => push_given(out, field, v),
    }
}

// A field with a value of its type.
#[cycle(encode)]
fn push_given(out: &mut Vec<u8>, field: FieldRef<'_>, v: TreeRef<'_>) -> Result<(), AllocError>
    requires { Of (kinds_of (field_of_ref field).type) (value_of_ref v) }
    ensures { let f = field_of_ref field.entry in OnOk result (out.new.items
        ≡ out.old.items ++ given_in_binary f.type f.id (binary f.type) (value_of_ref v.entry)) }
{
    let ty = field.ty();
    out.push(type_code(ty))?;
    push_i16(out, i64::from(field.id()))?;
    push_value(out, ty, v)
}
