//! Values read in Binary Protocol, and appended in their canonical spelling in Compact Protocol, level by level.

ghost use Rattle.std.specs.Prelude.{◌≡◌, ◌++◌, pos, ℕ};
ghost use Rattle.exact_reading.specs.Reading.{Gives, seen, and_then, pure};
ghost use Rattle.compact_wire.specs.Node.{Node, Nodes, structure};
ghost use Rattle.compact_wire.specs.Reads.{items, pairs};
ghost use Rattle.binary_wire.specs.BinaryReads.{value, row, mapping, all_fields};
ghost use Rattle.binary_wire.specs.Appends.{with_value, with_items, with_pairs, with_field, IsRow};

use crate::codes::read_code;
use crate::numbers::{both_fit, read_field_start, read_size};
use crate::scalars::{push_flag_field, push_scalar, read_flag};
use compact_wire::{
    FieldBefore, Kind, code_of, fits, push_field_header, push_number, push_sequence_header,
};
use exact_reading::{ReadError, Stop};

/// A value of a kind, where so many levels may still open. The bytes after it are told.
#[cycle(push)]
pub fn push_value<'a>(
    out: &mut Vec<u8>,
    levels: u32,
    kind: Kind,
    bytes: &'a [u8],
) -> Result<&'a [u8], ReadError<Stop>>
    ensures { Gives (λ x. (out.new.items, x.now)) result (seen (with_value out.old.items) (value levels kind bytes.now)) }
{
    if levels == 0 {
        return push_scalar(out, kind, bytes);
    }
    match kind {
        Kind::List | Kind::Set => push_row(out, levels - 1, bytes),
        Kind::Map => push_map(out, levels - 1, bytes),
        Kind::Struct => push_fields(out, levels - 1, bytes),
        Kind::Flag | Kind::I8 | Kind::I16 | Kind::I32 | Kind::I64 | Kind::Double | Kind::Binary =>
            push_scalar(out, kind, bytes),
    }
}

/// A list or a set whose items may open so many levels.
#[cycle(push)]
fn push_row<'a>(
    out: &mut Vec<u8>,
    levels: u32,
    bytes: &'a [u8],
) -> Result<&'a [u8], ReadError<Stop>>
    ensures { (make : ℕ → Nodes → Node) → IsRow make
        → Gives (λ x. (out.new.items, x.now)) result (seen (with_value out.old.items) (row make levels (value levels) bytes.now)) }
{
    let (kind, rest) = read_code(bytes)?;
    let (count, rest) = read_size(fits(levels, kind), rest)?;
    push_sequence_header(out, code_of(kind), count as usize)?;
    push_items(out, levels, kind, count, rest)
}

/// So many values of one kind.
#[cycle(push)]
fn push_items<'a>(
    out: &mut Vec<u8>,
    levels: u32,
    kind: Kind,
    count: u32,
    bytes: &'a [u8],
) -> Result<&'a [u8], ReadError<Stop>>
    ensures { Gives (λ x. (out.new.items, x.now)) result (seen (with_items out.old.items) (items (value levels kind) count bytes.now)) }
{
    let mut rest = bytes;
    for _ in 0..count {
        rest = push_value(out, levels, kind, rest)?;
    }
    Ok(rest)
}

/// A map whose keys and values may open so many levels.
#[cycle(push)]
fn push_map<'a>(
    out: &mut Vec<u8>,
    levels: u32,
    bytes: &'a [u8],
) -> Result<&'a [u8], ReadError<Stop>>
    ensures { Gives (λ x. (out.new.items, x.now)) result (seen (with_value out.old.items) (mapping levels (value levels) bytes.now)) }
{
    let (key_kind, rest) = read_code(bytes)?;
    let (value_kind, rest) = read_code(rest)?;
    let (count, rest) = read_size(both_fit(levels, key_kind, value_kind), rest)?;
    if count == 0 {
        out.push(0)?;
        return Ok(rest);
    }
    push_number(out, u64::from(count))?;
    out.push(16 * code_of(key_kind) + code_of(value_kind))?;
    push_pairs(out, levels, key_kind, value_kind, count, rest)
}

/// So many pairs of two kinds.
#[cycle(push)]
fn push_pairs<'a>(
    out: &mut Vec<u8>,
    levels: u32,
    key_kind: Kind,
    value_kind: Kind,
    count: u32,
    bytes: &'a [u8],
) -> Result<&'a [u8], ReadError<Stop>>
    ensures { Gives (λ x. (out.new.items, x.now)) result
        (seen (with_pairs out.old.items) (pairs (value levels key_kind) (value levels value_kind) count bytes.now)) }
{
    let mut rest = bytes;
    for _ in 0..count {
        let after = push_value(out, levels, key_kind, rest)?;
        rest = push_value(out, levels, value_kind, after)?;
    }
    Ok(rest)
}

/// A struct whose values may open so many levels.
#[cycle(push)]
fn push_fields<'a>(
    out: &mut Vec<u8>,
    levels: u32,
    bytes: &'a [u8],
) -> Result<&'a [u8], ReadError<Stop>>
    ensures { Gives (λ x. (out.new.items, x.now)) result
        (seen (with_value out.old.items) (and_then (all_fields levels (value levels)) (λ xs. pure (structure xs)) bytes.now)) }
{
    let mut rest = bytes;
    let mut before = FieldBefore { id: 0 };
    'fields: loop {
        let (start, after) = read_field_start(levels, rest)?;
        let Some((kind, id)) = start else {
            out.push(0)?;
            return Ok(after);
        };
        rest = push_field(out, levels, before, kind, id, after)?;
        before = FieldBefore { id };
    }
}

/// A field behind the field of the id before: its header and its value, which for a flag is in the header.
#[cycle(push)]
fn push_field<'a>(
    out: &mut Vec<u8>,
    levels: u32,
    before: FieldBefore,
    kind: Kind,
    id: i16,
    bytes: &'a [u8],
) -> Result<&'a [u8], ReadError<Stop>>
    ensures { Gives (λ x. (out.new.items, x.now)) result
        (seen (with_field out.old.items before.id id) (value levels kind bytes.now)) }
{
    match kind {
        Kind::Flag => {
            let (x, rest) = read_flag(bytes)?;
            push_flag_field(out, before, id, x)?;
            Ok(rest)
        }
        _ => {
            push_field_header(out, before, id, code_of(kind))?;
            push_value(out, levels, kind, bytes)
        }
    }
}
