//! Values passed over, level by level, with the number of their nodes.

ghost use Rattle.std.specs.Prelude.{◌≡◌, ◌<◌, ◌≤◌, ◌+◌, ◌^◌, length, IfOk, List, ℕ};
ghost use Rattle.exact_reading.specs.Reading.{Meets, seen, left, and_then, pure};
ghost use Rattle.compact_wire.specs.Node.{Node, Nodes, structure};
ghost use Rattle.compact_wire.specs.Reads.{scalar, value, items, sequence, mapping, pairs, all_fields, typed};
ghost use Rattle.wire_scan.specs.Scans.{IsRow};
ghost use Rattle.wire_scan.specs.Sizes.{size, sizes, sizes_of_pairs, sizes_of_fields};

use compact_wire::{
    FieldBefore, FieldType, Kind, PairKinds, element_of, read_count, read_field_start,
    read_list_header, read_map_header, read_number, read_taken,
};
use exact_reading::Stop;

/// The bytes after a value of a kind that is no container.
#[tactic(auto, unfolding(compact_wire::specs::Reads::scalar, compact_wire::specs::Reads::element_flag, compact_wire::specs::Reads::signed_byte, exact_reading::specs::Reading::taken))]
#[inline(always)]
pub fn skip_scalar(kind: Kind, bytes: &[u8]) -> Result<&[u8], Stop>
    ensures reads { Meets (λ x. x.now) result (left (scalar kind bytes.now)) }
    ensures shorter { IfOk result (λ x. length x.now < length bytes.now) }
{
    match kind {
        Kind::Flag => {
            let Some((first, rest)) = bytes.split_first() else {
                return Err(Stop::Ended);
            };
            if *first < 3 {
                Ok(rest)
            } else {
                Err(Stop::Refused(bytes.len()))
            }
        }
        Kind::I8 => {
            let Some((_, rest)) = bytes.split_first() else {
                return Err(Stop::Ended);
            };
            Ok(rest)
        }
        Kind::I16 => {
            let (_, rest) = read_number(2, 0xffff, bytes)?;
            Ok(rest)
        }
        Kind::I32 => {
            let (_, rest) = read_number(4, 0xffff_ffff, bytes)?;
            Ok(rest)
        }
        Kind::I64 => {
            let (_, rest) = read_number(9, 0xffff_ffff_ffff_ffff, bytes)?;
            Ok(rest)
        }
        Kind::Double => {
            let (_, rest) = read_taken(8, bytes)?;
            Ok(rest)
        }
        Kind::Binary => {
            let (n, rest) = read_number(4, 0x7fff_ffff, bytes)?;
            let (_, rest) = read_taken(n as usize, rest)?;
            Ok(rest)
        }
        Kind::List | Kind::Set | Kind::Map | Kind::Struct => Err(Stop::Ended),
    }
}

#[tactic(auto, using(crate::proofs::SkipSteps::leaf_err))]
fn skip_leaf(kind: Kind, bytes: &[u8], at: u64) -> Result<(u64, &[u8]), Stop>
    requires { at + length bytes.now < 2 ^ 64 }
    ensures reads { Meets (λ x. (x.0, x.1.now)) result (seen (λ w. at + size w) (scalar kind bytes.now)) }
    ensures room { IfOk result (λ x. x.0 + length x.1.now ≤ at + length bytes.now) }
{
    let rest = skip_scalar(kind, bytes)?;
    Ok((at + 1, rest))
}

/// The number of the node after a value of a kind whose node has the number `at`, and the bytes after it.
#[cycle(skip)]
pub fn skip_value(levels: u32, kind: Kind, bytes: &[u8], at: u64) -> Result<(u64, &[u8]), Stop>
    requires { at + length bytes.now < 2 ^ 64 }
    ensures reads { Meets (λ x. (x.0, x.1.now)) result
        (seen (λ w. at + size w) (value levels kind bytes.now)) }
    ensures room { IfOk result (λ x. x.0 + length x.1.now ≤ at + length bytes.now) }
{
    if levels == 0 {
        return skip_leaf(kind, bytes, at);
    }
    match kind {
        Kind::List | Kind::Set => skip_sequence(levels - 1, bytes, at),
        Kind::Map => skip_map(levels - 1, bytes, at),
        Kind::Struct => skip_fields(levels - 1, bytes, at),
        Kind::Flag | Kind::I8 | Kind::I16 | Kind::I32 | Kind::I64 | Kind::Double | Kind::Binary =>
            skip_leaf(kind, bytes, at),
    }
}

/// The same for a list or a set whose items may open so many levels.
#[cycle(skip)]
#[tactic(auto, unfolding(compact_wire::specs::Reads::sequence))]
fn skip_sequence(levels: u32, bytes: &[u8], at: u64) -> Result<(u64, &[u8]), Stop>
    requires { at + length bytes.now < 2 ^ 64 }
    ensures reads { (make : ℕ → Nodes → Node) → IsRow make
        → Meets (λ x. (x.0, x.1.now)) result
        (seen (λ w. at + size w) (sequence make levels (value levels) bytes.now)) }
    ensures room { IfOk result (λ x. x.0 + length x.1.now ≤ at + length bytes.now) }
{
    let (header, rest) = read_list_header(levels, bytes)?;
    let (n, rest) = read_count(levels, header, rest)?;
    skip_items(levels, element_of(header), n, rest, at + 1)
}

/// So many values of one kind.
#[cycle(skip)]
pub fn skip_items(
    levels: u32,
    kind: Kind,
    count: u64,
    bytes: &[u8],
    at: u64,
) -> Result<(u64, &[u8]), Stop>
    requires { at + length bytes.now < 2 ^ 64 }
    ensures reads { Meets (λ x. (x.0, x.1.now)) result
        (seen (λ xs. at + sizes xs) (items (value levels kind) count bytes.now)) }
    ensures room { IfOk result (λ x. x.0 + length x.1.now ≤ at + length bytes.now) }
{
    let mut next = at;
    let mut rest = bytes;
    for _ in 0..count {
        let (last, after) = skip_value(levels, kind, rest, next)?;
        next = last;
        rest = after;
    }
    Ok((next, rest))
}

/// The value of a field: a flag stands in the code, and anything else follows the header.
#[cycle(skip)]
pub fn skip_typed(
    levels: u32,
    field_type: FieldType,
    bytes: &[u8],
    at: u64,
) -> Result<(u64, &[u8]), Stop>
    requires { at + length bytes.now + 1 < 2 ^ 64 }
    ensures reads { Meets (λ x. (x.0, x.1.now)) result
        (seen (λ w. at + size w) (typed (value levels) field_type bytes.now)) }
    ensures room { IfOk result (λ x. x.0 + length x.1.now ≤ at + length bytes.now + 1) }
{
    match field_type {
        FieldType::Given(_) => Ok((at + 1, bytes)),
        FieldType::Of(kind) => skip_value(levels, kind, bytes, at),
    }
}

/// A struct whose values may open so many levels.
#[cycle(skip)]
fn skip_fields(levels: u32, bytes: &[u8], at: u64) -> Result<(u64, &[u8]), Stop>
    requires { at + length bytes.now < 2 ^ 64 }
    ensures reads { Meets (λ x. (x.0, x.1.now)) result
        (seen (λ w. at + size w) (and_then (all_fields levels (value levels)) (λ xs. pure (structure xs)) bytes.now)) }
    ensures room { IfOk result (λ x. x.0 + length x.1.now ≤ at + length bytes.now) }
{
    // The number of the next field's node is one more: a byte that ends the fields is still to come.
    let mut next = at;
    let mut rest = bytes;
    let mut before = FieldBefore { id: 0 };
    'fields: loop {
        let (start, after) = read_field_start(levels, before, rest)?;
        let Some((id, field_type)) = start else {
            return Ok((next + 1, after));
        };
        let (last, after) = skip_typed(levels, field_type, after, next)?;
        next = last;
        before = FieldBefore { id };
        rest = after;
    }
}

/// A map whose keys and values may open so many levels.
#[cycle(skip)]
fn skip_map(levels: u32, bytes: &[u8], at: u64) -> Result<(u64, &[u8]), Stop>
    requires { at + length bytes.now < 2 ^ 64 }
    ensures reads { Meets (λ x. (x.0, x.1.now)) result
        (seen (λ w. at + size w) (mapping levels (value levels) bytes.now)) }
    ensures room { IfOk result (λ x. x.0 + length x.1.now ≤ at + length bytes.now) }
{
    let (n, rest) = read_number(4, 0x7fff_ffff, bytes)?;
    if n == 0 {
        return Ok((at + 1, rest));
    }
    let (kinds, rest) = read_map_header(levels, rest)?;
    skip_pairs(levels, kinds, n, rest, at + 1)
}

/// So many pairs of two kinds.
#[cycle(skip)]
pub fn skip_pairs(
    levels: u32,
    kinds: PairKinds,
    count: u64,
    bytes: &[u8],
    at: u64,
) -> Result<(u64, &[u8]), Stop>
    requires { at + length bytes.now < 2 ^ 64 }
    ensures reads { Meets (λ x. (x.0, x.1.now)) result
        (seen (λ xs. at + sizes_of_pairs xs) (pairs (value levels kinds.key) (value levels kinds.value) count bytes.now)) }
    ensures room { IfOk result (λ x. x.0 + length x.1.now ≤ at + length bytes.now) }
{
    let mut next = at;
    let mut rest = bytes;
    for _ in 0..count {
        let (middle, after) = skip_value(levels, kinds.key, rest, next)?;
        let (last, after) = skip_value(levels, kinds.value, after, middle)?;
        next = last;
        rest = after;
    }
    Ok((next, rest))
}
