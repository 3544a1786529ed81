//! Writing a part of a file as JSON, as deep as its type goes.
ghost use Rattle.std.specs.Prelude.{◌≡◌, ◌⊎◌, ◌++◌, IfOk, OnOk, string_bytes, option_and_then};
ghost use Rattle.std.specs.List.{Contains};
ghost use Rattle.idl_profile.specs.Types.{kind_of, fields_of};
ghost use Rattle.idl_parse.specs.Refs.{field_of_ref, key_of, value_of};
ghost use Rattle.typed_tree.specs.Parts.{IsItems, field_of};
ghost use Rattle.typed_tree.specs.Spots.{pair};
ghost use Rattle.evolve.specs.Parts.{held};
ghost use Rattle.evolve.specs.Lenses.{type_of_lens, value_of_lens};
ghost use Rattle.serde_json.specs.Data.{Members, member};
ghost use Rattle.serde_json.specs.Written.{compact_text, members_text};
ghost use Rattle.json_line.specs.Json.{as_json, both, json, line, lines, with_held};

use crate::leaves::{push_bytes, push_comma, push_flag, push_number, push_text};
use evolve::Lens;
use std::alloc::{AllocError, Global};
use std::string::String;
use thrift_idl::{FieldRef, TypeKind};

/// The part as JSON with no space, and a newline: a flag is `true` or `false`, a number or enum stands in
/// decimal digits, a binary as a text of lower hexadecimal digits, a list or set as an array, a map as an
/// array of arrays of key and value, and a struct as an object of its fields by rising id, an absent
/// optional left out (docs/TEXTS.md). The one error is want of memory.
pub fn json_line(alloc: Global, from: Lens<'_>) -> Result<String, AllocError>
    ensures { IfOk result (λ s. string_bytes s ≡ line (type_of_lens from.entry) (value_of_lens from.entry)) }
{
    let mut out = String::new(alloc);
    push_value(&mut out, alloc, from)?;
    out.push_str("\n")?;
    Ok(out)
}

/// Each item of a list or a set as a line of JSON, and each pair of a map as a line with the array of its key
/// and its value (docs/TEXTS.md). The one error is want of memory.
pub fn item_lines(alloc: Global, from: Lens<'_>) -> Result<String, AllocError>
    requires { IsItems (value_of_lens from) }
    ensures { IfOk result (λ s. string_bytes s ≡ lines (type_of_lens from.entry) (value_of_lens from.entry)) }
{
    match from.kind() {
        TypeKind::Map => pair_lines(alloc, from),
        _ => row_lines(alloc, from),
    }
}

// The items of a list or a set as lines.
fn row_lines(alloc: Global, row: Lens<'_>) -> Result<String, AllocError>
    requires { (kind_of (type_of_lens row) ≡ TypeKind.List) ⊎ (kind_of (type_of_lens row) ≡ TypeKind.Set) }
    ensures { IfOk result (λ s. string_bytes s ≡ lines (type_of_lens row.entry) (value_of_lens row.entry)) }
{
    let mut out = String::new(alloc);
    for i in 0..row.len() {
        push_value(&mut out, alloc, row.item(i))?;
        out.push_str("\n")?;
    }
    Ok(out)
}

// The pairs of a map as lines.
fn pair_lines(alloc: Global, map: Lens<'_>) -> Result<String, AllocError>
    requires { kind_of (type_of_lens map) ≡ TypeKind.Map }
    ensures { IfOk result (λ s. string_bytes s ≡ lines (type_of_lens map.entry) (value_of_lens map.entry)) }
{
    let mut out = String::new(alloc);
    for i in 0..map.len() {
        let (key, value) = map.entry(i);
        push_pair(&mut out, alloc, key, value)?;
        out.push_str("\n")?;
    }
    Ok(out)
}

// A part of any type.
#[cycle(json_line)]
fn push_value(out: &mut String, alloc: Global, from: Lens<'_>) -> Result<(), AllocError>
    ensures { OnOk result (string_bytes out.new
        ≡ string_bytes out.old ++ json (type_of_lens from.entry) (value_of_lens from.entry)) }
{
    match from.kind() {
        TypeKind::Flag => push_flag(out, from.flag()),
        TypeKind::I8 => push_number(out, from.int()),
        TypeKind::I16 => push_number(out, from.int()),
        TypeKind::I32 => push_number(out, from.int()),
        TypeKind::I64 => push_number(out, from.int()),
        TypeKind::Enum => push_number(out, from.int()),
        TypeKind::Text => push_text(out, alloc, from.text()),
        TypeKind::Bytes => push_bytes(out, alloc, from.bytes()),
        TypeKind::List => push_row(out, alloc, from),
        TypeKind::Set => push_row(out, alloc, from),
        TypeKind::Map => push_map(out, alloc, from),
        TypeKind::Struct => push_fields(out, alloc, from),
    }
}

// The items of a list or a set as an array.
#[cycle(json_line)]
fn push_row(out: &mut String, alloc: Global, row: Lens<'_>) -> Result<(), AllocError>
    requires { (kind_of (type_of_lens row) ≡ TypeKind.List) ⊎ (kind_of (type_of_lens row) ≡ TypeKind.Set) }
    ensures { OnOk result (string_bytes out.new
        ≡ string_bytes out.old ++ json (type_of_lens row.entry) (value_of_lens row.entry)) }
{
    out.push_str("[")?;
    for i in 0..row.len() {
        push_comma(out, i > 0)?;
        push_value(out, alloc, row.item(i))?;
    }
    out.push_str("]")
}

// The pairs of a map as an array of arrays.
#[cycle(json_line)]
fn push_map(out: &mut String, alloc: Global, map: Lens<'_>) -> Result<(), AllocError>
    requires { kind_of (type_of_lens map) ≡ TypeKind.Map }
    ensures { OnOk result (string_bytes out.new
        ≡ string_bytes out.old ++ json (type_of_lens map.entry) (value_of_lens map.entry)) }
{
    out.push_str("[")?;
    for i in 0..map.len() {
        let (key, value) = map.entry(i);
        push_comma(out, i > 0)?;
        push_pair(out, alloc, key, value)?;
    }
    out.push_str("]")
}

// A key and a value as an array of two.
#[cycle(json_line)]
fn push_pair(
    out: &mut String,
    alloc: Global,
    key: Lens<'_>,
    value: Lens<'_>,
) -> Result<(), AllocError>
    ensures { OnOk result (string_bytes out.new ≡ string_bytes out.old
        ++ compact_text (both (as_json (type_of_lens key.entry)) (as_json (type_of_lens value.entry))
        (pair (value_of_lens key.entry) (value_of_lens value.entry)))) }
{
    out.push_str("[")?;
    push_value(out, alloc, key)?;
    out.push_str(",")?;
    push_value(out, alloc, value)?;
    out.push_str("]")
}

// The fields of a struct as an object.
#[cycle(json_line)]
fn push_fields(out: &mut String, alloc: Global, from: Lens<'_>) -> Result<(), AllocError>
    requires { kind_of (type_of_lens from) ≡ TypeKind.Struct }
    ensures { OnOk result (string_bytes out.new
        ≡ string_bytes out.old ++ json (type_of_lens from.entry) (value_of_lens from.entry)) }
{
    let ty = from.ty();
    out.push_str("{")?;
    let mut later = false;
    for i in 0..ty.field_count() {
        later = push_field(out, alloc, later, from, ty.field_at(i))?;
    }
    out.push_str("}")
}

// A field under its name, and whether a field stands before the next one. An optional that is not there is
// left out.
#[cycle(json_line)]
fn push_field<'a>(
    out: &mut String,
    alloc: Global,
    later: bool,
    from: Lens<'a>,
    field: FieldRef<'a>,
) -> Result<bool, AllocError>
    requires { Contains (fields_of (type_of_lens from)) (field_of_ref field) }
    ensures { let f = field_of_ref field.entry in IfOk result (λ after. (ms : Members)
        → string_bytes out.new ++ members_text after ms
        ≡ string_bytes out.old ++ members_text later
        (with_held f.name (as_json f.type)
        (option_and_then held (field_of (value_of_lens from.entry) f.id)) ms)) }
{
    match from.part(field) {
        Some(part) => push_given(out, alloc, later, field, part),
        None => Ok(later),
    }
}

// A part under the name of its field, which then stands before the next one.
#[cycle(json_line)]
fn push_given(
    out: &mut String,
    alloc: Global,
    later: bool,
    field: FieldRef<'_>,
    part: Lens<'_>,
) -> Result<bool, AllocError>
    ensures { let f = field_of_ref field.entry in IfOk result (λ after. (ms : Members)
        → string_bytes out.new ++ members_text after ms
        ≡ string_bytes out.old ++ members_text later
        (member f.name (as_json (type_of_lens part.entry) (value_of_lens part.entry)) ms)) }
{
    push_comma(out, later)?;
    push_text(out, alloc, field.name())?;
    out.push_str(":")?;
    push_value(out, alloc, part)?;
    Ok(true)
}
