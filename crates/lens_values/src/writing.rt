//! Writing a part of a file in its canonical spelling, as deep as its type goes, and adding up its cells.
ghost use Rattle.std.specs.Prelude.{◌≡◌, ◌≢◌, ◌+◌, ◌⊎◌, ◌++◌, IfErr, IfOk, OnOk, Some, option_and_then};
ghost use Rattle.std.specs.List.{Contains};
ghost use Rattle.idl_profile.specs.Types.{kind_of, fields_of};
ghost use Rattle.idl_parse.specs.Refs.{field_of_ref};
ghost use Rattle.frozen_model.specs.Values.{cells as cells_of};
ghost use Rattle.type_kinds.specs.KindsOf.{kinds_of};
ghost use Rattle.typed_tree.specs.Parts.{field_of};
ghost use Rattle.typed_tree.specs.Sizes.{capped};
ghost use Rattle.compact_wire.specs.Node.{Fields, field as one_field};
ghost use Rattle.compact_wire.specs.Canon.{canon, canon_fields};
ghost use Rattle.compact_wire.specs.Writes.{canon_field};
ghost use Rattle.compact_codec.specs.Wire.{wire};
ghost use Rattle.evolve.specs.Parts.{held};
ghost use Rattle.evolve.specs.Lenses.{type_of_lens, value_of_lens};
ghost use Rattle.lens_values.specs.Writing.{with_held, held_cells};
ghost use Rattle.lens_values.specs.Thaws.{IsHalt};

use crate::counted::{
    presence_cells, push_bytes, push_flag_header, push_int, push_mark, push_one_byte, push_truth,
    spend,
};
use crate::fault::Halt;
use compact_wire::{FieldBefore, push_field_header, push_number, push_sequence_header};
use evolve::Lens;
use thrift_idl::{FieldRef, TypeKind};
use typed_reading::code;
use typed_tree::inline_cells;

/// Appends the part, which is no field of a struct, in its canonical spelling, and adds its cells. It goes as
/// deep as the type, and stops before what the cells so far leave no room for.
#[cycle(thaw)]
#[inline(always)]
pub(crate) fn push_value(out: &mut Vec<u8>, cells: &mut u64, from: Lens<'_>) -> Result<(), Halt>
    ensures bytes { OnOk result (out.new.items
        ≡ out.old.items ++ canon (wire (type_of_lens from.entry) (value_of_lens from.entry))) }
    ensures counted { OnOk result (capped cells.new
        ≡ capped (cells.old + cells_of (kinds_of (type_of_lens from.entry)) (value_of_lens from.entry))) }
    ensures halted { IfErr result (IsHalt (cells.old
        + cells_of (kinds_of (type_of_lens from.entry)) (value_of_lens from.entry))) }
{
    match from.kind() {
        TypeKind::Flag => push_truth(out, cells, from.flag()),
        TypeKind::I8 => push_one_byte(out, cells, from.int()),
        TypeKind::I16 => push_int(out, cells, from),
        TypeKind::I32 => push_int(out, cells, from),
        TypeKind::I64 => push_int(out, cells, from),
        TypeKind::Enum => push_int(out, cells, from),
        TypeKind::Text => push_bytes(out, cells, from.bytes()),
        TypeKind::Bytes => push_bytes(out, cells, from.bytes()),
        TypeKind::List => push_row(out, cells, from),
        TypeKind::Set => push_row(out, cells, from),
        TypeKind::Map => push_map(out, cells, from),
        TypeKind::Struct => push_fields(out, cells, from),
    }
}

// A list or a set. The items of a set rise in the file as they do in the value, so they stand in order. The
// cell that each item has beside its own is counted before the first one.
#[cycle(thaw)]
fn push_row(out: &mut Vec<u8>, cells: &mut u64, from: Lens<'_>) -> Result<(), Halt>
    requires { (kind_of (type_of_lens from) ≡ TypeKind.List) ⊎ (kind_of (type_of_lens from) ≡ TypeKind.Set) }
    ensures bytes { OnOk result (out.new.items
        ≡ out.old.items ++ canon (wire (type_of_lens from.entry) (value_of_lens from.entry))) }
    ensures counted { OnOk result (capped cells.new
        ≡ capped (cells.old + cells_of (kinds_of (type_of_lens from.entry)) (value_of_lens from.entry))) }
    ensures halted { IfErr result (IsHalt (cells.old
        + cells_of (kinds_of (type_of_lens from.entry)) (value_of_lens from.entry))) }
{
    let row = from.row();
    let count = from.len();
    spend(cells, count.saturating_add(2))?;
    push_sequence_header(out, code(from.ty().element()), count as usize)?;
    for i in 0..count {
        push_value(out, cells, row.item(i))?;
    }
    Ok(())
}

// A map, in the order of its keys; the cell that each pair has is counted before the first one.
#[cycle(thaw)]
fn push_map(out: &mut Vec<u8>, cells: &mut u64, from: Lens<'_>) -> Result<(), Halt>
    requires { kind_of (type_of_lens from) ≡ TypeKind.Map }
    ensures bytes { OnOk result (out.new.items
        ≡ out.old.items ++ canon (wire (type_of_lens from.entry) (value_of_lens from.entry))) }
    ensures counted { OnOk result (capped cells.new
        ≡ capped (cells.old + cells_of (kinds_of (type_of_lens from.entry)) (value_of_lens from.entry))) }
    ensures halted { IfErr result (IsHalt (cells.old
        + cells_of (kinds_of (type_of_lens from.entry)) (value_of_lens from.entry))) }
{
    let row = from.row();
    let count = from.len();
    spend(cells, count.saturating_add(2))?;
    if count == 0 {
        push_mark(out, 0)?;
        return Ok(());
    }
    let ty = from.ty();
    push_number(out, count)?;
    push_mark(out, 16 * code(ty.key()) + code(ty.value()))?;
    for i in 0..count {
        let (key, value) = row.entry(i);
        push_value(out, cells, key)?;
        push_value(out, cells, value)?;
    }
    Ok(())
}

// The fields of a struct by rising id, and the byte that ends them.
#[cycle(thaw)]
fn push_fields(out: &mut Vec<u8>, cells: &mut u64, from: Lens<'_>) -> Result<(), Halt>
    requires { kind_of (type_of_lens from) ≡ TypeKind.Struct }
    ensures bytes { OnOk result (out.new.items
        ≡ out.old.items ++ canon (wire (type_of_lens from.entry) (value_of_lens from.entry))) }
    ensures counted { OnOk result (capped cells.new
        ≡ capped (cells.old + cells_of (kinds_of (type_of_lens from.entry)) (value_of_lens from.entry))) }
    ensures halted { IfErr result (IsHalt (cells.old
        + cells_of (kinds_of (type_of_lens from.entry)) (value_of_lens from.entry))) }
{
    let ty = from.ty();
    let mut before = FieldBefore { id: 0 };
    for i in 0..ty.field_count() {
        before = push_field(out, cells, before, from, ty.field_at(i))?;
    }
    push_mark(out, 0)?;
    Ok(())
}

// A field with what the struct has there behind the field before, and the field that stands before the next
// one. An optional that is not there is left out, and has the inline cells and one.
#[cycle(thaw)]
#[inline(always)]
fn push_field<'a>(
    out: &mut Vec<u8>,
    cells: &mut u64,
    before: FieldBefore,
    from: Lens<'a>,
    field: FieldRef<'a>,
) -> Result<FieldBefore, Halt>
    requires { Contains (fields_of (type_of_lens from)) (field_of_ref field) }
    ensures bytes { let f = field_of_ref field.entry in IfOk result (λ last. (xs : Fields)
        → out.new.items ++ canon_fields last.id xs
        ≡ out.old.items ++ canon_fields before.id (with_held f.id (wire f.type)
        (option_and_then held (field_of (value_of_lens from.entry) f.id)) xs)) }
    ensures counted { let f = field_of_ref field.entry in OnOk result (capped cells.new
        ≡ capped (cells.old + held_cells f.need (kinds_of f.type)
        (option_and_then held (field_of (value_of_lens from.entry) f.id)))) }
    ensures halted { let f = field_of_ref field.entry in IfErr result (IsHalt (cells.old
        + held_cells f.need (kinds_of f.type)
        (option_and_then held (field_of (value_of_lens from.entry) f.id)))) }
{
    match from.part(field) {
        Some(part) => push_given(out, cells, before, field, part),
        None => {
            spend(cells, inline_cells(field.ty()).saturating_add(1))?;
            Ok(before)
        }
    }
}

// A field with a part behind the field before, which then stands before the next one.
#[cycle(thaw)]
#[inline(always)]
fn push_given(
    out: &mut Vec<u8>,
    cells: &mut u64,
    before: FieldBefore,
    field: FieldRef<'_>,
    part: Lens<'_>,
) -> Result<FieldBefore, Halt>
    ensures bytes { let f = field_of_ref field.entry in IfOk result (λ last. (xs : Fields)
        → out.new.items ++ canon_fields last.id xs
        ≡ out.old.items ++ canon_fields before.id
        (one_field f.id (wire (type_of_lens part.entry) (value_of_lens part.entry)) xs)) }
    ensures counted { let f = field_of_ref field.entry in OnOk result (capped cells.new
        ≡ capped (cells.old + held_cells f.need (kinds_of (type_of_lens part.entry))
        (Some (value_of_lens part.entry)))) }
    ensures halted { let f = field_of_ref field.entry in IfErr result (IsHalt (cells.old
        + held_cells f.need (kinds_of (type_of_lens part.entry))
        (Some (value_of_lens part.entry)))) }
{
    spend(cells, presence_cells(field.need()))?;
    let id = field.id();
    push_header_and_value(out, cells, before, id, part)?;
    Ok(FieldBefore { id })
}

// The header of a field and its value; a flag stands in the header.
#[cycle(thaw)]
#[inline(always)]
fn push_header_and_value(
    out: &mut Vec<u8>,
    cells: &mut u64,
    before: FieldBefore,
    id: i16,
    part: Lens<'_>,
) -> Result<(), Halt>
    ensures bytes { OnOk result (out.new.items ≡ out.old.items
        ++ canon_field before.id id (wire (type_of_lens part.entry) (value_of_lens part.entry))) }
    ensures counted { OnOk result (capped cells.new
        ≡ capped (cells.old + cells_of (kinds_of (type_of_lens part.entry)) (value_of_lens part.entry))) }
    ensures halted { IfErr result (IsHalt (cells.old
        + cells_of (kinds_of (type_of_lens part.entry)) (value_of_lens part.entry))) }
{
    match part.kind() {
        TypeKind::Flag => push_flag_header(out, cells, before, id, part.flag()),
        _ => push_other_field(out, cells, before, id, part),
    }
}

// A field that is no flag.
#[cycle(thaw)]
#[inline(always)]
fn push_other_field(
    out: &mut Vec<u8>,
    cells: &mut u64,
    before: FieldBefore,
    id: i16,
    part: Lens<'_>,
) -> Result<(), Halt>
    requires { kind_of (type_of_lens part) ≢ TypeKind.Flag }
    ensures bytes { OnOk result (out.new.items ≡ out.old.items
        ++ canon_field before.id id (wire (type_of_lens part.entry) (value_of_lens part.entry))) }
    ensures counted { OnOk result (capped cells.new
        ≡ capped (cells.old + cells_of (kinds_of (type_of_lens part.entry)) (value_of_lens part.entry))) }
    ensures halted { IfErr result (IsHalt (cells.old
        + cells_of (kinds_of (type_of_lens part.entry)) (value_of_lens part.entry))) }
{
    push_field_header(out, before, id, code(part.ty()))?;
    push_value(out, cells, part)
}
