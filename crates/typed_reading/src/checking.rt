//! Values of the wire read as types and counted, level by level, in one pass over the bytes.

ghost use Rattle.std.specs.Prelude.{◌≡◌, ◌+◌, ◌<◌, ◌≤◌, ◌^◌, ◌⊎◌, ℕ, ℤ, List, [], ◌∷◌, Some, length, take, drop, IfOk, OnOk, IfSome, pos};
ghost use Rattle.exact_reading.specs.Reading.{Gives, seen, and_then, pure};
ghost use Rattle.compact_wire.specs.Node.{list, set, structure};
ghost use Rattle.compact_wire.specs.Codes.{code_of as wire_code};
ghost use Rattle.compact_wire.specs.Reads.{value, items, sequence, mapping, pairs, all_fields, typed};
ghost use Rattle.idl_profile.specs.Types.{kind_of};
ghost use Rattle.idl_profile.specs.declared.kinds.TypeKind.{TypeKind};
ghost use Rattle.idl_parse.specs.Refs.{type_of_ref, fields_of_refs};
ghost use Rattle.type_kinds.specs.Accepted.{IsAccepted};
ghost use Rattle.type_kinds.specs.Laws.{Any};
ghost use Rattle.typed_reading.specs.Codes.{code as type_code};
ghost use Rattle.typed_reading.specs.Counts.{counted, counted_items, counted_pairs, counted_field, IsCount};
ghost use Rattle.typed_reading.specs.Progress.{after, after_items, after_map, after_field, inside as inside_of};
ghost use Rattle.typed_reading.specs.Marks.{Marked, AreTyped, place_in, IsKeyKind};

use crate::counts::{
    Checked, with_defaults, with_holder, with_item, with_need, with_scalar, with_struct,
};
use crate::fault::NodeFault;
use crate::fields::{add_marks, first_missing, place_behind, set_mark, stood_behind};
use crate::keys::{check_key, check_set_items, keep_key, note_repeat};
use crate::progress::{Progress, note_fault, note_missing, pass_node, pass_to};
use crate::texts::check_leaf;
use crate::types::{code, elements_fit, pairs_fit};
use compact_wire::{
    FieldBefore, FieldType, Kind, PairKinds, code_of, element_of, read_count, read_field_start,
    read_list_header, read_map_header, read_number,
};
use exact_reading::{ReadError, Stop};
use std::alloc::Global;
use thrift_idl::{FieldRefs, TypeRef};
use wire_scan::{skip_items, skip_pairs, skip_typed, skip_value};

/// A value of a kind read as a type, told to the progress, and counted into the sums: the bytes after it. Where a fault
/// was found, the sums are of no use.
#[cycle(check)]
#[inline(always)]
pub fn check_value<'a>(
    alloc: Global,
    ty: TypeRef<'_>,
    levels: u32,
    kind: Kind,
    bytes: &'a [u8],
    progress: &mut Progress,
    sums: &mut Checked,
    marks: &mut Vec<bool>,
) -> Result<&'a [u8], ReadError<Stop>>
    requires room { progress.old.next + length bytes.now + 1 < 2 ^ 64 }
    requires accepted { IsAccepted Any (type_of_ref ty) }
    ensures reads { Gives (λ x. (progress.new, x.now)) result
        (seen (after (type_of_ref ty.entry) progress.old) (value levels kind bytes.now)) }
    ensures counts { IfOk result (λ x. IsCount progress.new sums.new x.now
        (seen (counted (type_of_ref ty.entry) sums.old) (value levels kind bytes.now))) }
    ensures room { IfOk result (λ x.
        progress.new.next + length x.now ≤ progress.old.next + length bytes.now) }
    ensures marks { OnOk result (marks.new.items ≡ marks.old.items) }
{
    if code_of(kind) != code(ty) {
        let (next, rest) = skip_value(levels, kind, bytes, progress.next)?;
        note_fault(progress, NodeFault::WrongType, next);
        return Ok(rest);
    }
    if levels == 0 {
        let rest = check_leaf(ty, kind, bytes, progress, sums)?;
        return Ok(rest);
    }
    match kind {
        Kind::List => check_list(alloc, ty, levels - 1, bytes, progress, sums, marks),
        Kind::Set => check_set(alloc, ty, levels - 1, bytes, progress, sums),
        Kind::Map => check_map(alloc, ty, levels - 1, bytes, progress, sums, marks),
        Kind::Struct => check_struct(alloc, ty, levels - 1, bytes, progress, sums, marks),
        _ => {
            let rest = check_leaf(ty, kind, bytes, progress, sums)?;
            Ok(rest)
        }
    }
}

/// A list of a list's type.
#[cycle(check)]
fn check_list<'a>(
    alloc: Global,
    ty: TypeRef<'_>,
    levels: u32,
    bytes: &'a [u8],
    progress: &mut Progress,
    sums: &mut Checked,
    marks: &mut Vec<bool>,
) -> Result<&'a [u8], ReadError<Stop>>
    requires room { progress.old.next + length bytes.now + 1 < 2 ^ 64 }
    requires accepted { IsAccepted Any (type_of_ref ty) }
    requires code { type_code (type_of_ref ty) ≡ 9 }
    ensures reads { Gives (λ x. (progress.new, x.now)) result
        (seen (after (type_of_ref ty.entry) progress.old) (sequence list levels (value levels) bytes.now)) }
    ensures counts { IfOk result (λ x. IsCount progress.new sums.new x.now
        (seen (counted (type_of_ref ty.entry) sums.old) (sequence list levels (value levels) bytes.now))) }
    ensures room { IfOk result (λ x.
        progress.new.next + length x.now ≤ progress.old.next + length bytes.now) }
    ensures marks { OnOk result (marks.new.items ≡ marks.old.items) }
{
    let (header, rest) = read_list_header(levels, bytes)?;
    let (count, rest) = read_count(levels, header, rest)?;
    let kind = element_of(header);
    let element = ty.element();
    if !elements_fit(kind, count, element) {
        let (next, rest) = skip_items(levels, kind, count, rest, progress.next + 1)?;
        note_fault(progress, NodeFault::WrongType, next);
        return Ok(rest);
    }
    pass_node(progress);
    *sums = with_holder(*sums);
    check_items(
        alloc, element, levels, kind, count, rest, progress, sums, marks,
    )
}

/// So many values of one kind.
#[cycle(check)]
fn check_items<'a>(
    alloc: Global,
    ty: TypeRef<'_>,
    levels: u32,
    kind: Kind,
    count: u64,
    bytes: &'a [u8],
    progress: &mut Progress,
    sums: &mut Checked,
    marks: &mut Vec<bool>,
) -> Result<&'a [u8], ReadError<Stop>>
    requires room { progress.old.next + length bytes.now + 1 < 2 ^ 64 }
    requires accepted { IsAccepted Any (type_of_ref ty) }
    ensures reads { Gives (λ x. (progress.new, x.now)) result
        (seen (after_items (type_of_ref ty.entry) progress.old) (items (value levels kind) count bytes.now)) }
    ensures counts { IfOk result (λ x. IsCount progress.new sums.new x.now
        (seen (counted_items (type_of_ref ty.entry) sums.old) (items (value levels kind) count bytes.now))) }
    ensures room { IfOk result (λ x.
        progress.new.next + length x.now ≤ progress.old.next + length bytes.now) }
    ensures marks { OnOk result (marks.new.items ≡ marks.old.items) }
{
    let mut rest = bytes;
    for _ in 0..count {
        *sums = with_item(*sums);
        let behind = check_value(alloc, ty, levels, kind, rest, progress, sums, marks)?;
        rest = behind;
    }
    Ok(rest)
}

/// A set of a set's type.
fn check_set<'a>(
    alloc: Global,
    ty: TypeRef<'_>,
    levels: u32,
    bytes: &'a [u8],
    progress: &mut Progress,
    sums: &mut Checked,
) -> Result<&'a [u8], ReadError<Stop>>
    requires room { progress.old.next + length bytes.now + 1 < 2 ^ 64 }
    requires accepted { IsAccepted Any (type_of_ref ty) }
    requires code { type_code (type_of_ref ty) ≡ 10 }
    ensures reads { Gives (λ x. (progress.new, x.now)) result
        (seen (after (type_of_ref ty.entry) progress.old) (sequence set levels (value levels) bytes.now)) }
    ensures counts { IfOk result (λ x. IsCount progress.new sums.new x.now
        (seen (counted (type_of_ref ty.entry) sums.old) (sequence set levels (value levels) bytes.now))) }
    ensures room { IfOk result (λ x.
        progress.new.next + length x.now ≤ progress.old.next + length bytes.now) }
{
    let (header, rest) = read_list_header(levels, bytes)?;
    let (count, rest) = read_count(levels, header, rest)?;
    let kind = element_of(header);
    let element = ty.element();
    if !elements_fit(kind, count, element) {
        let (next, rest) = skip_items(levels, kind, count, rest, progress.next + 1)?;
        note_fault(progress, NodeFault::WrongType, next);
        return Ok(rest);
    }
    pass_node(progress);
    *sums = with_holder(*sums);
    check_set_items(alloc, element, levels, kind, count, rest, progress, sums)
}

/// A map of a map's type.
#[cycle(check)]
fn check_map<'a>(
    alloc: Global,
    ty: TypeRef<'_>,
    levels: u32,
    bytes: &'a [u8],
    progress: &mut Progress,
    sums: &mut Checked,
    marks: &mut Vec<bool>,
) -> Result<&'a [u8], ReadError<Stop>>
    requires room { progress.old.next + length bytes.now + 1 < 2 ^ 64 }
    requires accepted { IsAccepted Any (type_of_ref ty) }
    requires code { type_code (type_of_ref ty) ≡ 11 }
    ensures reads { Gives (λ x. (progress.new, x.now)) result
        (seen (after (type_of_ref ty.entry) progress.old) (mapping levels (value levels) bytes.now)) }
    ensures counts { IfOk result (λ x. IsCount progress.new sums.new x.now
        (seen (counted (type_of_ref ty.entry) sums.old) (mapping levels (value levels) bytes.now))) }
    ensures room { IfOk result (λ x.
        progress.new.next + length x.now ≤ progress.old.next + length bytes.now) }
    ensures marks { OnOk result (marks.new.items ≡ marks.old.items) }
{
    let (count, rest) = read_number(4, 0x7fff_ffff, bytes)?;
    if count == 0 {
        pass_node(progress);
        *sums = with_holder(*sums);
        return Ok(rest);
    }
    let (kinds, rest) = read_map_header(levels, rest)?;
    let key_type = ty.key();
    let value_type = ty.value();
    if !pairs_fit(kinds, key_type, value_type) {
        let (next, rest) = skip_pairs(levels, kinds, count, rest, progress.next + 1)?;
        note_fault(progress, NodeFault::WrongType, next);
        return Ok(rest);
    }
    pass_node(progress);
    *sums = with_holder(*sums);
    check_pairs(
        alloc, key_type, value_type, levels, kinds, count, rest, progress, sums, marks,
    )
}

/// So many pairs of two kinds.
#[cycle(check)]
fn check_pairs<'a>(
    alloc: Global,
    key_type: TypeRef<'_>,
    value_type: TypeRef<'_>,
    levels: u32,
    kinds: PairKinds,
    count: u64,
    bytes: &'a [u8],
    progress: &mut Progress,
    sums: &mut Checked,
    marks: &mut Vec<bool>,
) -> Result<&'a [u8], ReadError<Stop>>
    requires room { progress.old.next + length bytes.now + 1 < 2 ^ 64 }
    requires kind { IsKeyKind kinds.key }
    requires code { wire_code kinds.key ≡ type_code (type_of_ref key_type) }
    requires accepted { IsAccepted Any (type_of_ref value_type) }
    ensures reads { Gives (λ x. (progress.new, x.now)) result
        (seen (after_map (type_of_ref key_type.entry) (type_of_ref value_type.entry) progress.old)
        (pairs (value levels kinds.key) (value levels kinds.value) count bytes.now)) }
    ensures counts { IfOk result (λ x. IsCount progress.new sums.new x.now
        (seen (counted_pairs (type_of_ref key_type.entry) (type_of_ref value_type.entry) sums.old)
        (pairs (value levels kinds.key) (value levels kinds.value) count bytes.now))) }
    ensures room { IfOk result (λ x.
        progress.new.next + length x.now ≤ progress.old.next + length bytes.now) }
    ensures marks { OnOk result (marks.new.items ≡ marks.old.items) }
{
    let mut keys = Vec::new(alloc);
    let mut rest = bytes;
    for _ in 0..count {
        *sums = with_item(*sums);
        let (first, middle) = check_key(key_type, kinds.key, rest, progress, sums)?;
        keep_key(&mut keys, kinds.key, first)?;
        let behind = check_value(
            alloc,
            value_type,
            levels,
            kinds.value,
            middle,
            progress,
            sums,
            marks,
        )?;
        rest = behind;
    }
    note_repeat(progress, keys.as_mut_slice());
    Ok(rest)
}

/// The value of a field: a flag stands in the code, and anything else follows the header.
#[cycle(check)]
#[inline(always)]
fn check_typed<'a>(
    alloc: Global,
    ty: TypeRef<'_>,
    levels: u32,
    field_type: FieldType,
    bytes: &'a [u8],
    progress: &mut Progress,
    sums: &mut Checked,
    marks: &mut Vec<bool>,
) -> Result<&'a [u8], ReadError<Stop>>
    requires room { progress.old.next + length bytes.now + 1 < 2 ^ 64 }
    requires accepted { IsAccepted Any (type_of_ref ty) }
    ensures reads { Gives (λ x. (progress.new, x.now)) result
        (seen (after (type_of_ref ty.entry) progress.old) (typed (value levels) field_type bytes.now)) }
    ensures counts { IfOk result (λ x. IsCount progress.new sums.new x.now
        (seen (counted (type_of_ref ty.entry) sums.old) (typed (value levels) field_type bytes.now))) }
    ensures room { IfOk result (λ x.
        progress.new.next + length x.now ≤ progress.old.next + length bytes.now + 1) }
    ensures marks { OnOk result (marks.new.items ≡ marks.old.items) }
{
    match field_type {
        FieldType::Given(_) => {
            if code(ty) == 1 {
                pass_node(progress);
                *sums = with_scalar(*sums);
                Ok(bytes)
            } else {
                let next = progress.next + 1;
                note_fault(progress, NodeFault::WrongType, next);
                Ok(bytes)
            }
        }
        FieldType::Of(kind) => check_value(alloc, ty, levels, kind, bytes, progress, sums, marks),
    }
}

/// The value of the field at a place of a struct, if it is known. Marks above the base are of those that stood.
#[cycle(check)]
#[inline(always)]
fn check_field<'a>(
    alloc: Global,
    fields: FieldRefs<'_>,
    place: Option<u32>,
    levels: u32,
    field_type: FieldType,
    bytes: &'a [u8],
    progress: &mut Progress,
    sums: &mut Checked,
    marks: &mut Vec<bool>,
    base: usize,
) -> Result<&'a [u8], ReadError<Stop>>
    requires room { progress.old.next + length bytes.now + 1 < 2 ^ 64 }
    requires typed { AreTyped (fields_of_refs fields) }
    requires place { IfSome place (λ p. p < length (fields_of_refs fields)) }
    ensures reads { (id : ℤ) (ids : List ℤ) → place ≡ place_in (fields_of_refs fields.entry) id
        → Marked (fields_of_refs fields.entry) (drop base marks.old.items) ids
        → Gives (λ x. (progress.new, x.now)) result
        (seen (λ w. (after_field (fields_of_refs fields.entry) (progress.old, ids) id w).0)
        (typed (value levels) field_type bytes.now)) }
    ensures counts { (id : ℤ) (ids : List ℤ) → place ≡ place_in (fields_of_refs fields.entry) id
        → IfOk result (λ x. IsCount progress.new sums.new x.now
        (seen (λ w. (counted_field (fields_of_refs fields.entry) (sums.old, ids) id w).0)
        (typed (value levels) field_type bytes.now))) }
    ensures room { IfOk result (λ x.
        progress.new.next + length x.now ≤ progress.old.next + length bytes.now + 1) }
    ensures marked { (id : ℤ) (ids : List ℤ) → place ≡ place_in (fields_of_refs fields.entry) id
        → Marked (fields_of_refs fields.entry) (drop base marks.old.items) ids
        → OnOk result (Marked (fields_of_refs fields.entry) (drop base marks.new.items) (id ∷ ids)) }
    ensures below { OnOk result (take base marks.new.items ≡ take base marks.old.items) }
{
    let Some(place) = place else {
        let (next, rest) = skip_typed(levels, field_type, bytes, progress.next)?;
        pass_to(progress, next);
        return Ok(rest);
    };
    if set_mark(marks, base, place) {
        let (next, rest) = skip_typed(levels, field_type, bytes, progress.next)?;
        note_fault(progress, NodeFault::RepeatedField, next);
        return Ok(rest);
    }
    let field = fields.at(place);
    *sums = with_need(*sums, field.need());
    check_typed(
        alloc,
        field.ty(),
        levels,
        field_type,
        bytes,
        progress,
        sums,
        marks,
    )
}

/// A struct of a struct's type.
#[cycle(check)]
pub fn check_struct<'a>(
    alloc: Global,
    ty: TypeRef<'_>,
    levels: u32,
    bytes: &'a [u8],
    progress: &mut Progress,
    sums: &mut Checked,
    marks: &mut Vec<bool>,
) -> Result<&'a [u8], ReadError<Stop>>
    requires room { progress.old.next + length bytes.now + 1 < 2 ^ 64 }
    requires accepted { IsAccepted Any (type_of_ref ty) }
    requires is_struct { kind_of (type_of_ref ty) ≡ TypeKind.Struct }
    ensures reads { Gives (λ x. (progress.new, x.now)) result
        (seen (after (type_of_ref ty.entry) progress.old)
        (and_then (all_fields levels (value levels)) (λ xs. pure (structure xs)) bytes.now)) }
    ensures counts { IfOk result (λ x. IsCount progress.new sums.new x.now
        (seen (counted (type_of_ref ty.entry) sums.old)
        (and_then (all_fields levels (value levels)) (λ xs. pure (structure xs)) bytes.now))) }
    ensures room { IfOk result (λ x.
        progress.new.next + length x.now ≤ progress.old.next + length bytes.now) }
    ensures marks { OnOk result (marks.new.items ≡ marks.old.items) }
{
    let base = marks.len();
    let fields = ty.fields();
    add_marks(marks, fields)?;
    let node = progress.next;
    pass_node(progress);
    *sums = with_struct(*sums);
    let mut rest = bytes;
    let mut before = FieldBefore { id: 0 };
    let mut likely = 0;
    let mut stood = 0;
    'fields: loop {
        let (start, behind) = read_field_start(levels, before, rest)?;
        let Some((id, field_type)) = start else {
            let missing = first_missing(fields, marks.as_slice(), base, stood);
            *sums = with_defaults(fields, marks.as_slice(), base, stood, *sums);
            marks.truncate(base);
            note_missing(progress, node, missing);
            return Ok(behind);
        };
        let place = fields.place_near(id, likely);
        likely = place_behind(place, likely);
        stood = stood_behind(place, stood);
        let behind = check_field(
            alloc, fields, place, levels, field_type, behind, progress, sums, marks, base,
        )?;
        before = FieldBefore { id };
        rest = behind;
    }
}
