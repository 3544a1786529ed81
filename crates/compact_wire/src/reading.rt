//! Reading values, level by level.

ghost use Rattle.std.specs.Prelude.{◌≡◌};
ghost use Rattle.exact_reading.specs.Reading.{Gives, and_then, pure};
ghost use Rattle.compact_wire.specs.Reads.{items, sequence, value, mapping, pairs, mapping_pairs};
ghost use Rattle.compact_wire.specs.Reads.{all_fields, typed};
ghost use Rattle.compact_wire.specs.Node.{list, set, structure};
ghost use Rattle.compact_wire.specs.View.{view, nodes_view, fields_view, pairs_view};

use crate::header::{FieldBefore, FieldType, PairKinds};
use crate::headers::{element_of, read_count, read_field_start, read_list_header, read_map_header};
use crate::kind::{Kind, code_of};
use crate::numbers::read_number;
use crate::scalars::read_scalar;
use crate::wire::Wire;
use exact_reading::{ReadError, Stop};
use sqlite_items::Items;
use std::alloc::Global;

/// A value of a kind, where so many levels may still open, and the bytes after it.
#[cycle(value)]
pub fn read_value(
    alloc: Global,
    levels: u32,
    kind: Kind,
    bytes: &[u8],
) -> Result<(Wire, &[u8]), ReadError<Stop>>
    ensures { Gives (λ x. (view x.0, x.1.now)) result (value levels kind bytes.now) }
{
    if levels == 0 {
        return read_scalar(alloc, kind, bytes);
    }
    match kind {
        Kind::List => read_list(alloc, levels - 1, bytes),
        Kind::Set => read_set(alloc, levels - 1, bytes),
        Kind::Map => read_map(alloc, levels - 1, bytes),
        Kind::Struct => read_struct(alloc, levels - 1, bytes),
        Kind::Flag | Kind::I8 | Kind::I16 | Kind::I32 | Kind::I64 | Kind::Double | Kind::Binary =>
            read_scalar(alloc, kind, bytes),
    }
}

/// A list whose items may open so many levels.
#[cycle(value)]
#[tactic(auto, unfolding(crate::specs::Reads::sequence))]
fn read_list(alloc: Global, levels: u32, bytes: &[u8]) -> Result<(Wire, &[u8]), ReadError<Stop>>
    ensures { Gives (λ x. (view x.0, x.1.now)) result (sequence list levels (value levels) bytes.now) }
{
    let (header, rest) = read_list_header(levels, bytes)?;
    let (n, rest) = read_count(levels, header, rest)?;
    let kind = element_of(header);
    let (items, rest) = read_items(alloc, levels, kind, n, rest)?;
    let items = Items::from_vec(items);
    let code = code_of(kind);
    Ok((Wire::List { code, items }, rest))
}

/// The same for a set.
#[cycle(value)]
#[tactic(auto, unfolding(crate::specs::Reads::sequence))]
fn read_set(alloc: Global, levels: u32, bytes: &[u8]) -> Result<(Wire, &[u8]), ReadError<Stop>>
    ensures { Gives (λ x. (view x.0, x.1.now)) result (sequence set levels (value levels) bytes.now) }
{
    let (header, rest) = read_list_header(levels, bytes)?;
    let (n, rest) = read_count(levels, header, rest)?;
    let kind = element_of(header);
    let (items, rest) = read_items(alloc, levels, kind, n, rest)?;
    let items = Items::from_vec(items);
    let code = code_of(kind);
    Ok((Wire::Set { code, items }, rest))
}

/// So many values of one kind.
#[cycle(value)]
fn read_items(
    alloc: Global,
    levels: u32,
    kind: Kind,
    count: u64,
    bytes: &[u8],
) -> Result<(Vec<Wire>, &[u8]), ReadError<Stop>>
    ensures { Gives (λ x. (nodes_view x.0.items, x.1.now)) result
        (items (value levels kind) count bytes.now) }
{
    let mut found = Vec::new(alloc);
    let mut rest = bytes;
    for _ in 0..count {
        let (item, after) = read_value(alloc, levels, kind, rest)?;
        found.push(item)?;
        rest = after;
    }
    found.shrink_to_fit();
    Ok((found, rest))
}

/// A struct whose values may open so many levels.
#[cycle(value)]
fn read_struct(alloc: Global, levels: u32, bytes: &[u8]) -> Result<(Wire, &[u8]), ReadError<Stop>>
    ensures { Gives (λ x. (view x.0, x.1.now)) result
        (and_then (all_fields levels (value levels)) (λ xs. pure (structure xs)) bytes.now) }
{
    let (fields, rest) = read_fields(alloc, levels, bytes)?;
    let fields = Items::from_vec(fields);
    Ok((Wire::Struct(fields), rest))
}

/// The value of a field: a flag stands in the code, and anything else follows the header.
#[cycle(value)]
fn read_typed(
    alloc: Global,
    levels: u32,
    field_type: FieldType,
    bytes: &[u8],
) -> Result<(Wire, &[u8]), ReadError<Stop>>
    ensures { Gives (λ x. (view x.0, x.1.now)) result (typed (value levels) field_type bytes.now) }
{
    match field_type {
        FieldType::Given(x) => Ok((Wire::Flag(x), bytes)),
        FieldType::Of(kind) => read_value(alloc, levels, kind, bytes),
    }
}

/// The fields of a struct, up to the byte that ends them.
#[cycle(value)]
fn read_fields(
    alloc: Global,
    levels: u32,
    bytes: &[u8],
) -> Result<(Vec<(i16, Wire)>, &[u8]), ReadError<Stop>>
    ensures { Gives (λ x. (fields_view x.0.items, x.1.now)) result
        (all_fields levels (value levels) bytes.now) }
{
    let mut found = Vec::new(alloc);
    let mut rest = bytes;
    let mut before = FieldBefore { id: 0 };
    'fields: loop {
        let (start, after) = read_field_start(levels, before, rest)?;
        let Some((id, field_type)) = start else {
            found.shrink_to_fit();
            return Ok((found, after));
        };
        let (x, after) = read_typed(alloc, levels, field_type, after)?;
        found.push((id, x))?;
        before = FieldBefore { id };
        rest = after;
    }
}

/// A map whose keys and values may open so many levels.
#[cycle(value)]
fn read_map(alloc: Global, levels: u32, bytes: &[u8]) -> Result<(Wire, &[u8]), ReadError<Stop>>
    ensures { Gives (λ x. (view x.0, x.1.now)) result (mapping levels (value levels) bytes.now) }
{
    let (n, rest) = read_number(4, 0x7fff_ffff, bytes)?;
    if n == 0 {
        let pairs = Items::new(alloc);
        return Ok((
            Wire::Map {
                key: 0,
                value: 0,
                pairs,
            },
            rest,
        ));
    }
    let (header, rest) = read_map_header(levels, rest)?;
    read_some_pairs(alloc, levels, header, n, rest)
}

/// The pairs of a map that has some.
#[cycle(value)]
fn read_some_pairs(
    alloc: Global,
    levels: u32,
    kinds: PairKinds,
    count: u64,
    bytes: &[u8],
) -> Result<(Wire, &[u8]), ReadError<Stop>>
    ensures { Gives (λ x. (view x.0, x.1.now)) result (mapping_pairs (value levels) count kinds bytes.now) }
{
    let (pairs, rest) = read_pairs(alloc, levels, kinds.key, kinds.value, count, bytes)?;
    let pairs = Items::from_vec(pairs);
    let key = code_of(kinds.key);
    let value = code_of(kinds.value);
    Ok((Wire::Map { key, value, pairs }, rest))
}

/// So many pairs of two kinds.
#[cycle(value)]
fn read_pairs(
    alloc: Global,
    levels: u32,
    key_kind: Kind,
    value_kind: Kind,
    count: u64,
    bytes: &[u8],
) -> Result<(Vec<(Wire, Wire)>, &[u8]), ReadError<Stop>>
    ensures { Gives (λ x. (pairs_view x.0.items, x.1.now)) result
        (pairs (value levels key_kind) (value levels value_kind) count bytes.now) }
{
    let mut found = Vec::new(alloc);
    let mut rest = bytes;
    for _ in 0..count {
        let (key, after) = read_value(alloc, levels, key_kind, rest)?;
        let (item, after) = read_value(alloc, levels, value_kind, after)?;
        found.push((key, item))?;
        rest = after;
    }
    found.shrink_to_fit();
    Ok((found, rest))
}
