//! Writing a value of a type in its canonical spelling.

ghost use Rattle.std.specs.Prelude.{◌≡◌, ◌≢◌, ◌<◌, ◌++◌, IfOk, OnOk};
ghost use Rattle.idl_profile.specs.Types.{kind_of};
ghost use Rattle.idl_parse.specs.Refs.{type_of_ref, field_of_ref};
ghost use Rattle.frozen_model.specs.Values.{Of, OfEach};
ghost use Rattle.type_kinds.specs.KindsOf.{kinds_of};
ghost use Rattle.typed_tree.specs.Parts.{IsInt, IsRow, IsMap, items_of};
ghost use Rattle.typed_tree.specs.References.{value_of_ref};
ghost use Rattle.typed_tree.specs.Sizes.{field_kinds};
ghost use Rattle.typed_tree.specs.Ranges.{pair_kinds};
ghost use Rattle.compact_wire.specs.Node.{Fields, list, field as one_field};
ghost use Rattle.compact_wire.specs.Number.{shortest, zigzag as zigzag_of};
ghost use Rattle.compact_wire.specs.Canon.{canon, canon_fields};
ghost use Rattle.compact_wire.specs.Writes.{canon_field};
ghost use Rattle.typed_reading.specs.Codes.{code as code_in};
ghost use Rattle.compact_codec.specs.Wire.{wire, each, each_pair, map_with, with_field, number_in};

use crate::scalars::{push_byte, push_flag, push_flag_field};
use compact_wire::{
    FieldBefore, push_binary, push_field_header, push_number, push_sequence_header, zigzag,
};
use std::alloc::{AllocError, Global};
use thrift_idl::{FieldRef, Need, TypeKind, TypeRef};
use typed_reading::code;
use typed_tree::{TreeKind, TreeRef};

/// The canonical spelling of a value of the type: fields by rising id, an absent optional left out and
/// every other field written; shortest numbers, and short headers where they can stand; sets and maps in
/// the order of their keys. It goes as deep as the type, and makes no tree of the wire.
pub fn encode(alloc: Global, ty: TypeRef<'_>, v: TreeRef<'_>) -> Result<Vec<u8>, AllocError>
    requires { Of (kinds_of (type_of_ref ty)) (value_of_ref v) }
    ensures { IfOk result (λ out. out.items ≡ canon (wire (type_of_ref ty.entry) (value_of_ref v.entry))) }
{
    let mut out = Vec::new(alloc);
    push_value(&mut out, ty, v)?;
    Ok(out)
}

// A number of more bits.
fn push_int(out: &mut Vec<u8>, v: TreeRef<'_>) -> Result<(), AllocError>
    requires { IsInt (value_of_ref v) }
    ensures { OnOk result (out.new.items
        ≡ out.old.items ++ shortest (zigzag_of (number_in (value_of_ref v.entry)))) }
{
    push_number(out, zigzag(v.int()))
}

// A value that is no field of a struct.
#[cycle(encode)]
fn push_value(out: &mut Vec<u8>, ty: TypeRef<'_>, v: TreeRef<'_>) -> Result<(), AllocError>
    requires { Of (kinds_of (type_of_ref ty)) (value_of_ref v) }
    ensures { OnOk result (out.new.items
        ≡ out.old.items ++ canon (wire (type_of_ref ty.entry) (value_of_ref v.entry))) }
{
    match ty.kind() {
        TypeKind::Flag => push_flag(out, v.flag()),
        TypeKind::I8 => push_byte(out, v.int()),
        TypeKind::I16 => push_int(out, v),
        TypeKind::I32 => push_int(out, v),
        TypeKind::I64 => push_int(out, v),
        TypeKind::Enum => push_int(out, v),
        TypeKind::Text => push_binary(out, v.bytes()),
        TypeKind::Bytes => push_binary(out, v.bytes()),
        TypeKind::List => push_row(out, ty.element(), v),
        TypeKind::Set => push_row(out, ty.element(), v),
        TypeKind::Map => push_map(out, ty.key(), ty.value(), v),
        TypeKind::Struct => push_fields(out, ty, v),
    }
}

// A list or a set, whose items are of the type.
#[cycle(encode)]
fn push_row(out: &mut Vec<u8>, element: TypeRef<'_>, row: TreeRef<'_>) -> Result<(), AllocError>
    requires row { IsRow (value_of_ref row) }
    requires items { OfEach (kinds_of (type_of_ref element)) (items_of (value_of_ref row)) }
    ensures { let t = type_of_ref element.entry in OnOk result (out.new.items
        ≡ out.old.items ++ canon (list (code_in t) (each (wire t) (items_of (value_of_ref row.entry))))) }
{
    let count = row.len();
    push_sequence_header(out, code(element), count as usize)?;
    for i in 0..count {
        push_value(out, element, row.item(i))?;
    }
    Ok(())
}

// A map, whose keys and values are of these types.
#[cycle(encode)]
fn push_map(
    out: &mut Vec<u8>,
    key: TypeRef<'_>,
    value: TypeRef<'_>,
    map: TreeRef<'_>,
) -> Result<(), AllocError>
    requires map { IsMap (value_of_ref map) }
    requires items { let kinds = pair_kinds (kinds_of (type_of_ref key)) (kinds_of (type_of_ref value)) in
        OfEach kinds (items_of (value_of_ref map)) }
    ensures { let k = type_of_ref key.entry in let v = type_of_ref value.entry in OnOk result (out.new.items
        ≡ out.old.items ++ canon (map_with (code_in k) (code_in v)
        (each_pair (wire k) (wire v) (items_of (value_of_ref map.entry))))) }
{
    let count = map.len();
    if count == 0 {
        out.push(0)?;
        return Ok(());
    }
    push_number(out, count)?;
    out.push(16 * code(key) + code(value))?;
    for i in 0..count {
        let (first, second) = map.entry(i);
        push_value(out, key, first)?;
        push_value(out, value, second)?;
    }
    Ok(())
}

// The fields of a struct, and the byte that ends them.
#[cycle(encode)]
fn push_fields(out: &mut Vec<u8>, ty: TypeRef<'_>, v: TreeRef<'_>) -> Result<(), AllocError>
    requires kind { kind_of (type_of_ref ty) ≡ TypeKind.Struct }
    requires value { Of (kinds_of (type_of_ref ty)) (value_of_ref v) }
    ensures { OnOk result (out.new.items
        ≡ out.old.items ++ canon (wire (type_of_ref ty.entry) (value_of_ref v.entry))) }
{
    let mut before = FieldBefore { id: 0 };
    for i in 0..ty.field_count() {
        before = push_field(out, before, ty.field_at(i), v.field_at(u64::from(i)))?;
    }
    out.push(0)?;
    Ok(())
}

// A field with its value behind the field before, and the field that stands before the next one. An
// optional that is not present is left out.
#[cycle(encode)]
fn push_field(
    out: &mut Vec<u8>,
    before: FieldBefore,
    field: FieldRef<'_>,
    v: TreeRef<'_>,
) -> Result<FieldBefore, AllocError>
    requires { let f = field_of_ref field in Of (field_kinds f.need f.type) (value_of_ref v) }
    ensures { let f = field_of_ref field.entry in IfOk result (λ last. (xs : Fields)
        → out.new.items ++ canon_fields last.id xs
        ≡ out.old.items ++ canon_fields before.id
        (with_field f.need f.id (wire f.type) (value_of_ref v.entry) xs)) }
{
    match field.need() {
        Need::Optional => match v.kind() {
            TreeKind::Present => push_given(out, before, field, v.inner()),
            _ => Ok(before),
        },
        Need::Plain => push_given(out, before, field, v),
        Need::Required => push_given(out, before, field, v),
    }
}

// A field with a value of its type behind the field before, which then stands before the next one.
#[cycle(encode)]
fn push_given(
    out: &mut Vec<u8>,
    before: FieldBefore,
    field: FieldRef<'_>,
    v: TreeRef<'_>,
) -> Result<FieldBefore, AllocError>
    requires { Of (kinds_of (field_of_ref field).type) (value_of_ref v) }
    ensures { let f = field_of_ref field.entry in IfOk result (λ last. (xs : Fields)
        → out.new.items ++ canon_fields last.id xs
        ≡ out.old.items ++ canon_fields before.id (one_field f.id (wire f.type (value_of_ref v.entry)) xs)) }
{
    let id = field.id();
    push_header_and_value(out, before, id, field.ty(), v)?;
    Ok(FieldBefore { id })
}

// The header of a field and its value; a flag stands in the header.
#[cycle(encode)]
fn push_header_and_value(
    out: &mut Vec<u8>,
    before: FieldBefore,
    id: i16,
    ty: TypeRef<'_>,
    v: TreeRef<'_>,
) -> Result<(), AllocError>
    requires { Of (kinds_of (type_of_ref ty)) (value_of_ref v) }
    ensures { OnOk result (out.new.items
        ≡ out.old.items ++ canon_field before.id id (wire (type_of_ref ty.entry) (value_of_ref v.entry))) }
{
    match ty.kind() {
        TypeKind::Flag => push_flag_field(out, before, id, v.flag()),
        _ => push_other_field(out, before, id, ty, v),
    }
}

// A field that is no flag.
#[cycle(encode)]
fn push_other_field(
    out: &mut Vec<u8>,
    before: FieldBefore,
    id: i16,
    ty: TypeRef<'_>,
    v: TreeRef<'_>,
) -> Result<(), AllocError>
    requires no_flag { kind_of (type_of_ref ty) ≢ TypeKind.Flag }
    requires value { Of (kinds_of (type_of_ref ty)) (value_of_ref v) }
    ensures { OnOk result (out.new.items
        ≡ out.old.items ++ canon_field before.id id (wire (type_of_ref ty.entry) (value_of_ref v.entry))) }
{
    push_field_header(out, before, id, code(ty))?;
    push_value(out, ty, v)
}
