//! Codes of types.

ghost use Rattle.std.specs.Prelude.{◌≡◌, ◌<◌, ◌||◌, ◌&&◌, nat_eq};
ghost use Rattle.compact_wire.specs.Codes.{code_of as wire_code};
ghost use Rattle.idl_parse.specs.Refs.{type_of_ref};
ghost use Rattle.typed_reading.specs.Codes.{code as type_code};
ghost use Rattle.typed_reading.specs.Progress.{kind_code as code_of_kind};

use compact_wire::{Kind, PairKinds, code_of};
use thrift_idl::{TypeKind, TypeRef};

#[inline]
fn kind_code(kind: TypeKind) -> u8
    ensures is { result ≡ code_of_kind kind }
    ensures small { result < 16 }
{
    match kind {
        TypeKind::Flag => 1,
        TypeKind::I8 => 3,
        TypeKind::I16 => 4,
        TypeKind::I32 | TypeKind::Enum => 5,
        TypeKind::I64 => 6,
        TypeKind::Text | TypeKind::Bytes => 8,
        TypeKind::List => 9,
        TypeKind::Set => 10,
        TypeKind::Map => 11,
        TypeKind::Struct => 12,
    }
}

/// The code of a type's values; an enum is an i32. docs/COMPACT.md has the codes.
#[tactic(auto, using(crate::proofs::TypeLaws::code_is))]
#[inline]
pub fn code(ty: TypeRef<'_>) -> u8
    ensures is { result ≡ type_code (type_of_ref ty.entry) }
    ensures small { result < 16 }
{
    kind_code(ty.kind())
}

/// Whether so many elements of a kind may stand where the type is that of the elements.
#[inline]
pub fn elements_fit(kind: Kind, count: u64, element: TypeRef<'_>) -> bool
    ensures { result ≡ (nat_eq count 0 || nat_eq (wire_code kind) (type_code (type_of_ref element.entry))) }
{
    count == 0 || code_of(kind) == code(element)
}

/// Whether pairs of two kinds may stand where the types are those of keys and values.
#[inline]
pub fn pairs_fit(kinds: PairKinds, key: TypeRef<'_>, value: TypeRef<'_>) -> bool
    ensures { result ≡ (nat_eq (wire_code kinds.key) (type_code (type_of_ref key.entry))
        && nat_eq (wire_code kinds.value) (type_code (type_of_ref value.entry))) }
{
    code_of(kinds.key) == code(key) && code_of(kinds.value) == code(value)
}
