//! Trees of bytes that spell a value without faults: one pass over the bytes, driven by the type.

ghost use Rattle.std.specs.Prelude.{◌≡◌, Ok, IfOk, OnOk};
ghost use Rattle.exact_reading.specs.Reading.{and_then, pure, seen};
ghost use Rattle.compact_wire.specs.Node.{Node, list, set, structure};
ghost use Rattle.compact_wire.specs.Reads.{value, items, sequence, mapping, pairs, typed, all_fields};
ghost use Rattle.idl_parse.specs.Refs.{type_of_ref, fields_of_refs};
ghost use Rattle.type_kinds.specs.Accepted.{IsAccepted};
ghost use Rattle.type_kinds.specs.Laws.{Any};
ghost use Rattle.typed_tree.specs.Trees.{trees};
ghost use Rattle.typed_reading.specs.Marks.{place_in};
ghost use Rattle.compact_codec.specs.Building.{IsClean, AreClean, ArePairsClean, IsFieldClean, AreOfAccepted};
ghost use Rattle.compact_codec.specs.Building.{with_value, with_values, with_pairs, IsPut};

use crate::fields::{filled_behind, finish_struct, wrap};
use crate::leaves::{build_leaf, join_map, join_set};
use compact_wire::{
    FieldBefore, FieldType, Kind, PairKinds, element_of, read_count, read_field_start,
    read_list_header, read_map_header, read_number,
};
use std::alloc::AllocError;
use thrift_idl::{FieldRefs, TypeRef};
use typed_reading::{add_marks, place_behind, set_mark};
use typed_tree::Builder;
use wire_scan::skip_typed;

/// A value of a kind: its tree is put, and the bytes after it are told.
#[cycle(build)]
#[inline(always)]
pub fn build_value<'a>(
    ty: TypeRef<'_>,
    levels: u32,
    kind: Kind,
    bytes: &'a [u8],
    builder: &mut Builder,
    ids: &mut Vec<i16>,
    marks: &mut Vec<bool>,
) -> Result<&'a [u8], AllocError>
    requires accepted { IsAccepted Any (type_of_ref ty) }
    requires clean { IsClean (type_of_ref ty) (value levels kind bytes.now) }
    ensures built { IfOk result (λ rest.
        seen (with_value (type_of_ref ty.entry) (trees builder.old)) (value levels kind bytes.now)
        ≡ Ok (trees builder.new, rest.now)) }
    ensures ids { OnOk result (ids.new.items ≡ ids.old.items) }
    ensures marks { OnOk result (marks.new.items ≡ marks.old.items) }
{
    if levels == 0 {
        return build_leaf(ty, kind, bytes, builder);
    }
    match kind {
        Kind::List => build_list(ty, levels - 1, bytes, builder, ids, marks),
        Kind::Set => build_set(ty, levels - 1, bytes, builder, ids, marks),
        Kind::Map => build_map(ty, levels - 1, bytes, builder, ids, marks),
        Kind::Struct => build_struct(ty, levels - 1, bytes, builder, ids, marks),
        _ => build_leaf(ty, kind, bytes, builder),
    }
}

/// So many values of one kind.
#[cycle(build)]
fn build_items<'a>(
    ty: TypeRef<'_>,
    levels: u32,
    kind: Kind,
    count: u64,
    bytes: &'a [u8],
    builder: &mut Builder,
    ids: &mut Vec<i16>,
    marks: &mut Vec<bool>,
) -> Result<&'a [u8], AllocError>
    requires accepted { IsAccepted Any (type_of_ref ty) }
    requires clean { AreClean (type_of_ref ty) (items (value levels kind) count bytes.now) }
    ensures built { IfOk result (λ rest.
        seen (with_values (type_of_ref ty.entry) (trees builder.old))
        (items (value levels kind) count bytes.now)
        ≡ Ok (trees builder.new, rest.now)) }
    ensures ids { OnOk result (ids.new.items ≡ ids.old.items) }
    ensures marks { OnOk result (marks.new.items ≡ marks.old.items) }
{
    let mut rest = bytes;
    for _ in 0..count {
        rest = build_value(ty, levels, kind, rest, builder, ids, marks)?;
    }
    Ok(rest)
}

/// A list of a list's type.
#[cycle(build)]
fn build_list<'a>(
    ty: TypeRef<'_>,
    levels: u32,
    bytes: &'a [u8],
    builder: &mut Builder,
    ids: &mut Vec<i16>,
    marks: &mut Vec<bool>,
) -> Result<&'a [u8], AllocError>
    requires accepted { IsAccepted Any (type_of_ref ty) }
    requires clean { IsClean (type_of_ref ty) (sequence list levels (value levels) bytes.now) }
    ensures built { IfOk result (λ rest.
        seen (with_value (type_of_ref ty.entry) (trees builder.old))
        (sequence list levels (value levels) bytes.now)
        ≡ Ok (trees builder.new, rest.now)) }
    ensures ids { OnOk result (ids.new.items ≡ ids.old.items) }
    ensures marks { OnOk result (marks.new.items ≡ marks.old.items) }
{
    let Ok((header, rest)) = read_list_header(levels, bytes) else {
        unreachable!()
    };
    let Ok((count, rest)) = read_count(levels, header, rest) else {
        unreachable!()
    };
    let element = ty.element();
    let kind = element_of(header);
    let rest = build_items(element, levels, kind, count, rest, builder, ids, marks)?;
    builder.list(count)?;
    Ok(rest)
}

/// A set of a set's type.
#[cycle(build)]
fn build_set<'a>(
    ty: TypeRef<'_>,
    levels: u32,
    bytes: &'a [u8],
    builder: &mut Builder,
    ids: &mut Vec<i16>,
    marks: &mut Vec<bool>,
) -> Result<&'a [u8], AllocError>
    requires accepted { IsAccepted Any (type_of_ref ty) }
    requires clean { IsClean (type_of_ref ty) (sequence set levels (value levels) bytes.now) }
    ensures built { IfOk result (λ rest.
        seen (with_value (type_of_ref ty.entry) (trees builder.old))
        (sequence set levels (value levels) bytes.now)
        ≡ Ok (trees builder.new, rest.now)) }
    ensures ids { OnOk result (ids.new.items ≡ ids.old.items) }
    ensures marks { OnOk result (marks.new.items ≡ marks.old.items) }
{
    let Ok((header, rest)) = read_list_header(levels, bytes) else {
        unreachable!()
    };
    let Ok((count, rest)) = read_count(levels, header, rest) else {
        unreachable!()
    };
    let element = ty.element();
    let kind = element_of(header);
    let rest = build_items(element, levels, kind, count, rest, builder, ids, marks)?;
    join_set(builder, count)?;
    Ok(rest)
}

/// A map of a map's type.
#[cycle(build)]
fn build_map<'a>(
    ty: TypeRef<'_>,
    levels: u32,
    bytes: &'a [u8],
    builder: &mut Builder,
    ids: &mut Vec<i16>,
    marks: &mut Vec<bool>,
) -> Result<&'a [u8], AllocError>
    requires accepted { IsAccepted Any (type_of_ref ty) }
    requires clean { IsClean (type_of_ref ty) (mapping levels (value levels) bytes.now) }
    ensures built { IfOk result (λ rest.
        seen (with_value (type_of_ref ty.entry) (trees builder.old)) (mapping levels (value levels) bytes.now)
        ≡ Ok (trees builder.new, rest.now)) }
    ensures ids { OnOk result (ids.new.items ≡ ids.old.items) }
    ensures marks { OnOk result (marks.new.items ≡ marks.old.items) }
{
    let Ok((count, rest)) = read_number(4, 0x7fff_ffff, bytes) else {
        unreachable!()
    };
    if count == 0 {
        join_map(builder, 0)?;
        return Ok(rest);
    }
    let Ok((kinds, rest)) = read_map_header(levels, rest) else {
        unreachable!()
    };
    let key_type = ty.key();
    let value_type = ty.value();
    let rest = build_pairs(
        key_type, value_type, levels, kinds, count, rest, builder, ids, marks,
    )?;
    join_map(builder, count)?;
    Ok(rest)
}

/// So many pairs of two kinds, keys and values by turns.
#[cycle(build)]
fn build_pairs<'a>(
    key_type: TypeRef<'_>,
    value_type: TypeRef<'_>,
    levels: u32,
    kinds: PairKinds,
    count: u64,
    bytes: &'a [u8],
    builder: &mut Builder,
    ids: &mut Vec<i16>,
    marks: &mut Vec<bool>,
) -> Result<&'a [u8], AllocError>
    requires key { IsAccepted Any (type_of_ref key_type) }
    requires value { IsAccepted Any (type_of_ref value_type) }
    requires clean { ArePairsClean (type_of_ref key_type) (type_of_ref value_type)
        (pairs (value levels kinds.key) (value levels kinds.value) count bytes.now) }
    ensures built { IfOk result (λ rest.
        seen (with_pairs (type_of_ref key_type.entry) (type_of_ref value_type.entry) (trees builder.old))
        (pairs (value levels kinds.key) (value levels kinds.value) count bytes.now)
        ≡ Ok (trees builder.new, rest.now)) }
    ensures ids { OnOk result (ids.new.items ≡ ids.old.items) }
    ensures marks { OnOk result (marks.new.items ≡ marks.old.items) }
{
    let mut rest = bytes;
    for _ in 0..count {
        let behind = build_value(key_type, levels, kinds.key, rest, builder, ids, marks)?;
        rest = build_value(value_type, levels, kinds.value, behind, builder, ids, marks)?;
    }
    Ok(rest)
}

/// The value of a field: a flag stands in the code, and anything else follows the header.
#[cycle(build)]
#[inline(always)]
fn build_typed<'a>(
    ty: TypeRef<'_>,
    levels: u32,
    field_type: FieldType,
    bytes: &'a [u8],
    builder: &mut Builder,
    ids: &mut Vec<i16>,
    marks: &mut Vec<bool>,
) -> Result<&'a [u8], AllocError>
    requires accepted { IsAccepted Any (type_of_ref ty) }
    requires clean { IsClean (type_of_ref ty) (typed (value levels) field_type bytes.now) }
    ensures built { IfOk result (λ rest.
        seen (with_value (type_of_ref ty.entry) (trees builder.old))
        (typed (value levels) field_type bytes.now)
        ≡ Ok (trees builder.new, rest.now)) }
    ensures ids { OnOk result (ids.new.items ≡ ids.old.items) }
    ensures marks { OnOk result (marks.new.items ≡ marks.old.items) }
{
    match field_type {
        FieldType::Given(x) => {
            builder.flag(x)?;
            Ok(bytes)
        }
        FieldType::Of(kind) => build_value(ty, levels, kind, bytes, builder, ids, marks),
    }
}

/// The field at a place among a struct's, if it is known; its id is added, and it is marked above a base.
#[cycle(build)]
#[inline(always)]
fn build_field<'a>(
    fields: FieldRefs<'_>,
    place: Option<u32>,
    id: i16,
    levels: u32,
    field_type: FieldType,
    bytes: &'a [u8],
    builder: &mut Builder,
    ids: &mut Vec<i16>,
    marks: &mut Vec<bool>,
    base: usize,
) -> Result<&'a [u8], AllocError>
    requires accepted { AreOfAccepted fields }
    requires place { place ≡ place_in (fields_of_refs fields) id }
    requires clean { IsFieldClean (fields_of_refs fields) id
        (typed (value levels) field_type bytes.now) }
    ensures { IfOk result (λ rest. (w : Node) × (typed (value levels) field_type bytes.now ≡ Ok (w, rest.now))
        × IsPut (fields_of_refs fields.entry) place id base w (trees builder.old) (trees builder.new)
        ids.old.items ids.new.items marks.old.items marks.new.items) }
{
    let Some(place) = place else {
        let Ok((_, rest)) = skip_typed(levels, field_type, bytes, 0) else {
            unreachable!()
        };
        return Ok(rest);
    };
    set_mark(marks, base, place);
    ids.push(id)?;
    let field = fields.at(place);
    let rest = build_typed(field.ty(), levels, field_type, bytes, builder, ids, marks)?;
    wrap(field.need(), builder)?;
    Ok(rest)
}

/// A struct of a struct's type.
#[cycle(build)]
fn build_struct<'a>(
    ty: TypeRef<'_>,
    levels: u32,
    bytes: &'a [u8],
    builder: &mut Builder,
    ids: &mut Vec<i16>,
    marks: &mut Vec<bool>,
) -> Result<&'a [u8], AllocError>
    requires accepted { IsAccepted Any (type_of_ref ty) }
    requires clean { IsClean (type_of_ref ty)
        (and_then (all_fields levels (value levels)) (λ xs. pure (structure xs)) bytes.now) }
    ensures built { IfOk result (λ rest.
        seen (with_value (type_of_ref ty.entry) (trees builder.old))
        (and_then (all_fields levels (value levels)) (λ xs. pure (structure xs)) bytes.now)
        ≡ Ok (trees builder.new, rest.now)) }
    ensures ids { OnOk result (ids.new.items ≡ ids.old.items) }
    ensures marks { OnOk result (marks.new.items ≡ marks.old.items) }
{
    let first_id = ids.len();
    let first_mark = marks.len();
    let fields = ty.fields();
    add_marks(marks, fields)?;
    let mut rest = bytes;
    let mut before = FieldBefore { id: 0 };
    let mut likely = 0;
    let mut filled = 0;
    'each: loop {
        let Ok((start, behind)) = read_field_start(levels, before, rest) else {
            unreachable!()
        };
        let Some((id, field_type)) = start else {
            finish_struct(fields, builder, ids, marks, first_id, first_mark, filled)?;
            return Ok(behind);
        };
        let place = fields.place_near(id, likely);
        likely = place_behind(place, likely);
        filled = filled_behind(place, filled);
        rest = build_field(
            fields, place, id, levels, field_type, behind, builder, ids, marks, first_mark,
        )?;
        before = FieldBefore { id };
    }
}
