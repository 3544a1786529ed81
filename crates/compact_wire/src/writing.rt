//! Writing a struct, each value in its canonical spelling.

ghost use Rattle.std.specs.Prelude.{◌≡◌, ◌<◌, ◌++◌, IfOk, OnOk, length, pos};
ghost use Rattle.compact_wire.specs.Number.{shortest};
ghost use Rattle.compact_wire.specs.Node.{list, map};
ghost use Rattle.compact_wire.specs.Canon.{canon, canon_items, canon_pairs, canon_fields, code_in_field};
ghost use Rattle.compact_wire.specs.Canon.{field_header, sequence_header, FitsWire};
ghost use Rattle.compact_wire.specs.View.{view, nodes_view, pairs_view, fields_view};
ghost use Rattle.compact_wire.specs.Writes.{canon_field, CodesFit, CodesFitAll, CodesFitPairs};
ghost use Rattle.compact_wire.specs.Writes.{CodesFitFields};

use crate::header::FieldBefore;
use crate::numbers::{push_number, zigzag};
use crate::wire::Wire;
use std::alloc::{AllocError, Global};

/// The canonical spelling of a struct: shortest numbers, and short headers where they can stand.
pub fn write_wire(alloc: Global, wire: &Wire) -> Result<Vec<u8>, AllocError>
    requires { FitsWire (view wire.now) }
    ensures { IfOk result (λ out. out.items ≡ canon (view wire.now)) }
{
    let mut out = Vec::new(alloc);
    push_value(&mut out, wire)?;
    Ok(out)
}

/// Appends the header of a list or a set of so many items, by the code of their type: one byte where they are
/// fewer than 15, and else a byte and their number. After a want of memory `out` may have bytes of it at its end.
pub fn push_sequence_header(out: &mut Vec<u8>, code: u8, count: usize) -> Result<(), AllocError>
    requires { code < 16 }
    ensures { OnOk result (out.new.items ≡ out.old.items ++ sequence_header code count) }
{
    if count < 15 {
        out.push(16 * (count as u8) + code)?;
        return Ok(());
    }
    out.push(240 + code)?;
    push_number(out, count as u64)
}

/// Appends the header of a field behind the field of the id before: one byte where the id rises by 1 to 15, and
/// else the code and the id. After a want of memory `out` may have bytes of it at its end.
pub fn push_field_header(
    out: &mut Vec<u8>,
    before: FieldBefore,
    id: i16,
    code: u8,
) -> Result<(), AllocError>
    requires { code < 16 }
    ensures { OnOk result (out.new.items ≡ out.old.items ++ field_header before.id id code) }
{
    let step = i32::from(id) - i32::from(before.id);
    if step > 0 && step < 16 {
        out.push(16 * (step as u8) + code)?;
        return Ok(());
    }
    out.push(code)?;
    push_number(out, zigzag(i64::from(id)))
}

/// The code of a value in the header of its field.
fn field_code(wire: &Wire) -> u8
    ensures code { result ≡ code_in_field (view wire.now) }
    ensures bound { result < 16 }
{
    match wire {
        Wire::Flag(true) => 1,
        Wire::Flag(false) => 2,
        Wire::I8(_) => 3,
        Wire::I16(_) => 4,
        Wire::I32(_) => 5,
        Wire::I64(_) => 6,
        Wire::Double(_) => 7,
        Wire::Binary(_) => 8,
        Wire::List { .. } => 9,
        Wire::Set { .. } => 10,
        Wire::Map { .. } => 11,
        Wire::Struct(_) => 12,
    }
}

/// Appends a length and the bytes. After a want of memory `out` may have bytes of it at its end.
pub fn push_binary(out: &mut Vec<u8>, bytes: &[u8]) -> Result<(), AllocError>
    ensures { OnOk result (out.new.items ≡ out.old.items ++ (shortest (length bytes.now) ++ bytes.now)) }
{
    push_number(out, bytes.len() as u64)?;
    out.extend_from_slice(bytes)
}

/// A value that is no field of a struct.
#[cycle(write)]
fn push_value(out: &mut Vec<u8>, wire: &Wire) -> Result<(), AllocError>
    requires { CodesFit (view wire.now) }
    ensures { OnOk result (out.new.items ≡ out.old.items ++ canon (view wire.now)) }
{
    match wire {
        Wire::Flag(x) => {
            out.push(if *x { 1 } else { 2 })?;
            Ok(())
        }
        Wire::I8(x) => {
            let [byte] = x.to_le_bytes();
            out.push(byte)?;
            Ok(())
        }
        Wire::I16(x) => push_number(out, zigzag(i64::from(*x))),
        Wire::I32(x) => push_number(out, zigzag(i64::from(*x))),
        Wire::I64(x) => push_number(out, zigzag(*x)),
        Wire::Double(bytes) => out.extend_from_slice(bytes),
        Wire::Binary(bytes) => push_binary(out, bytes.as_slice()),
        Wire::List { code, items } => push_sequence(out, *code, items.as_slice()),
        Wire::Set { code, items } => push_sequence(out, *code, items.as_slice()),
        Wire::Map { key, value, pairs } => push_map(out, *key, *value, pairs.as_slice()),
        Wire::Struct(fields) => push_fields(out, fields.as_slice()),
    }
}

/// The header and the items of a list or a set.
#[cycle(write)]
fn push_sequence(out: &mut Vec<u8>, code: u8, items: &[Wire]) -> Result<(), AllocError>
    requires { CodesFit (list code (nodes_view items.now)) }
    ensures { OnOk result (out.new.items ≡ out.old.items ++ canon (list code (nodes_view items.now))) }
{
    push_sequence_header(out, code, items.len())?;
    push_items(out, items)
}

/// The items, one after the other.
#[cycle(write)]
fn push_items(out: &mut Vec<u8>, items: &[Wire]) -> Result<(), AllocError>
    requires { CodesFitAll (nodes_view items.now) }
    ensures { OnOk result (out.new.items ≡ out.old.items ++ canon_items (nodes_view items.now)) }
{
    for item in items {
        push_value(out, item)?;
    }
    Ok(())
}

/// The size, and for a map with pairs the codes and the pairs.
#[cycle(write)]
fn push_map(out: &mut Vec<u8>, key: u8, value: u8, pairs: &[(Wire, Wire)]) -> Result<(), AllocError>
    requires { CodesFit (map key value (pairs_view pairs.now)) }
    ensures { OnOk result (out.new.items ≡ out.old.items ++ canon (map key value (pairs_view pairs.now))) }
{
    if pairs.is_empty() {
        out.push(0)?;
        return Ok(());
    }
    push_number(out, pairs.len() as u64)?;
    out.push(16 * key + value)?;
    push_pairs(out, pairs)
}

/// The pairs, one after the other, each key before its value.
#[cycle(write)]
fn push_pairs(out: &mut Vec<u8>, pairs: &[(Wire, Wire)]) -> Result<(), AllocError>
    requires { CodesFitPairs (pairs_view pairs.now) }
    ensures { OnOk result (out.new.items ≡ out.old.items ++ canon_pairs (pairs_view pairs.now)) }
{
    for (key, value) in pairs {
        push_value(out, key)?;
        push_value(out, value)?;
    }
    Ok(())
}

/// The fields in the order in which they stand, and the byte that ends them.
#[cycle(write)]
fn push_fields(out: &mut Vec<u8>, fields: &[(i16, Wire)]) -> Result<(), AllocError>
    requires { CodesFitFields (fields_view fields.now) }
    ensures { OnOk result (out.new.items ≡ out.old.items ++ canon_fields (pos 0) (fields_view fields.now)) }
{
    let mut before = FieldBefore { id: 0 };
    for (id, value) in fields {
        push_field(out, before, *id, value)?;
        before = FieldBefore { id: *id };
    }
    out.push(0)?;
    Ok(())
}

/// The header of a field and its value, which for a flag is in the header.
#[cycle(write)]
fn push_field(
    out: &mut Vec<u8>,
    before: FieldBefore,
    id: i16,
    value: &Wire,
) -> Result<(), AllocError>
    requires { CodesFit (view value.now) }
    ensures { OnOk result (out.new.items ≡ out.old.items ++ canon_field before.id id (view value.now)) }
{
    push_field_header(out, before, id, field_code(value))?;
    match value {
        Wire::Flag(_) => Ok(()),
        _ => push_value(out, value),
    }
}
