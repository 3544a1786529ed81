//! The fields of a schema's struct, found in its bytes.

ghost use Rattle.std.specs.Prelude.{◌≡◌, Some, option_map, false};
ghost use Rattle.std.specs.Prelude.{pos};
ghost use Rattle.frozen_model.specs.Values.{Value, One, Truth};
ghost use Rattle.compact_wire.specs.declared.kind.Kind.TheVariants.{Struct};
ghost use Rattle.compact_wire.specs.Reads.{value};
ghost use Rattle.idl_profile.specs.Types.{TypeTree, fields_of};
ghost use Rattle.idl_profile.specs.declared.kinds.Need.TheVariants.{Plain};
ghost use Rattle.type_kinds.specs.Accepted.{IsKeyType};
ghost use Rattle.key_order.specs.Keys.{value_of};
ghost use Rattle.typed_reading.specs.Faults.{type_in};
ghost use Rattle.typed_reading.specs.Meaning.{given, under};
ghost use Rattle.compact_codec.specs.Building.{IsClean};
ghost use Rattle.compact_codec.specs.Wire.{flag_in, number_in};
ghost use Rattle.layout_schema.specs.Schemas.{number};
ghost use Rattle.layout_schema.specs.Standing.{is_key_kind, rows_in, IsAt, Stands};

use compact_wire::{FieldBefore, FieldType, Kind, read_field_start};
use key_order::Key;
use typed_reading::read_key;
use wire_scan::skip_typed;

/// Where a field's value stands: what its code says, and the bytes behind its header.
#[derive(Clone, Copy)]
pub(crate) struct Standing<'a> {
    pub(crate) field_type: FieldType,
    pub(crate) bytes: &'a [u8],
}

/// The first field with the id of the struct that the bytes spell. `None` where there is none.
pub(crate) fn find_field(bytes: &[u8], wanted: i16) -> Option<Standing<'_>>
    ensures { (t u : TypeTree) → type_in (fields_of t) wanted ≡ Some u → IsClean t (value 64 Struct bytes.now)
        → Stands t u wanted (value 64 Struct bytes.now) result }
{
    let mut rest = bytes;
    let mut before = FieldBefore { id: 0 };
    'fields: loop {
        let Ok((start, behind)) = read_field_start(63, before, rest) else {
            return None;
        };
        let Some((id, field_type)) = start else {
            return None;
        };
        if id == wanted {
            return Some(Standing {
                field_type,
                bytes: behind,
            });
        }
        let Ok((_, after)) = skip_typed(63, field_type, behind, 0) else {
            return None;
        };
        before = FieldBefore { id };
        rest = after;
    }
}

// Whether values of the kind may be keys.
fn is_key(kind: Kind) -> bool
    ensures { result ≡ is_key_kind kind }
{
    matches!(
        kind,
        Kind::Flag | Kind::I8 | Kind::I16 | Kind::I32 | Kind::I64 | Kind::Binary
    )
}

// The flag, the number or the bytes that stand there.
fn key_at(standing: Standing<'_>) -> Option<Key<'_>>
    ensures { (u : TypeTree) (v : Value) → IsKeyType u → IsAt u standing.entry v
        → option_map value_of result ≡ Some v }
{
    let kind = match standing.field_type {
        FieldType::Given(x) => return Some(Key::Flag(x)),
        FieldType::Of(kind) => kind,
    };
    if !is_key(kind) {
        return None;
    }
    match read_key(kind, standing.bytes) {
        Ok((key, _)) => Some(key),
        Err(_) => None,
    }
}

// The flag, the number or the bytes of the field with the id, where there is one.
fn key_of_field(bytes: &[u8], wanted: i16) -> Option<Key<'_>>
    ensures { (t u : TypeTree) → type_in (fields_of t) wanted ≡ Some u → IsKeyType u
        → IsClean t (value 64 Struct bytes.now)
        → option_map value_of result ≡ under wanted (rows_in t (value 64 Struct bytes.now)) }
{
    match find_field(bytes, wanted) {
        Some(standing) => key_at(standing),
        None => None,
    }
}

// The number; 0 where it is none.
fn number_of(key: Key<'_>) -> i64
    ensures { number_in (value_of key.entry) ≡ result }
{
    match key {
        Key::Number(x) => x,
        Key::Flag(_) => 0,
        Key::Bytes(_) => 0,
    }
}

// The flag; false where it is none.
fn flag_of(key: Key<'_>) -> bool
    ensures { flag_in (value_of key.entry) ≡ result }
{
    match key {
        Key::Flag(x) => x,
        Key::Number(_) => false,
        Key::Bytes(_) => false,
    }
}

/// The number of the field with the id; 0 where it is missing.
pub(crate) fn number_of_field(bytes: &[u8], wanted: i16) -> i64
    ensures { (t u : TypeTree) → type_in (fields_of t) wanted ≡ Some u → IsKeyType u
        → IsClean t (value 64 Struct bytes.now)
        → number_in (given Plain (under wanted (rows_in t (value 64 Struct bytes.now))) (number (pos 0)))
        ≡ result }
{
    match key_of_field(bytes, wanted) {
        Some(key) => number_of(key),
        None => 0,
    }
}

/// The flag of the field with the id; false where it is missing.
pub(crate) fn flag_of_field(bytes: &[u8], wanted: i16) -> bool
    ensures { (t u : TypeTree) → type_in (fields_of t) wanted ≡ Some u → IsKeyType u
        → IsClean t (value 64 Struct bytes.now)
        → flag_in (given Plain (under wanted (rows_in t (value 64 Struct bytes.now))) (One (Truth false)))
        ≡ result }
{
    match key_of_field(bytes, wanted) {
        Some(key) => flag_of(key),
        None => false,
    }
}
