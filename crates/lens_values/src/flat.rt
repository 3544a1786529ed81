//! Whether all values of a type have the same cells.
ghost use Rattle.std.specs.Prelude.{◌≡◌, true};
ghost use Rattle.idl_profile.specs.Types.{kind_of};
ghost use Rattle.idl_parse.specs.Refs.{type_of_ref};
ghost use Rattle.type_kinds.specs.KindsOf.{kinds_of};
ghost use Rattle.lens_values.specs.Flat.{IsFlat, IsLeaf};

use thrift_idl::{TypeKind, TypeRef};

/// Whether the type is a flag, a number or an enum.
#[inline]
pub(crate) fn is_leaf(ty: TypeRef<'_>) -> bool
    ensures { result ≡ true → IsLeaf (kinds_of (type_of_ref ty.entry)) }
{
    match ty.kind() {
        TypeKind::Flag => true,
        TypeKind::I8 => true,
        TypeKind::I16 => true,
        TypeKind::I32 => true,
        TypeKind::I64 => true,
        TypeKind::Enum => true,
        _ => false,
    }
}

/// Whether no text, bytes, list, set or map is inside the type. It goes as deep as the type.
#[cycle(flat)]
pub(crate) fn is_flat(ty: TypeRef<'_>) -> bool
    ensures { result ≡ true → IsFlat (kinds_of (type_of_ref ty.entry)) }
{
    match ty.kind() {
        TypeKind::Flag => true,
        TypeKind::I8 => true,
        TypeKind::I16 => true,
        TypeKind::I32 => true,
        TypeKind::I64 => true,
        TypeKind::Enum => true,
        TypeKind::Text => false,
        TypeKind::Bytes => false,
        TypeKind::List => false,
        TypeKind::Set => false,
        TypeKind::Map => false,
        TypeKind::Struct => has_flat_fields(ty),
    }
}

// Whether each field of a struct is so.
#[cycle(flat)]
fn has_flat_fields(ty: TypeRef<'_>) -> bool
    requires { kind_of (type_of_ref ty) ≡ TypeKind.Struct }
    ensures { result ≡ true → IsFlat (kinds_of (type_of_ref ty.entry)) }
{
    for i in 0..ty.field_count() {
        if !is_flat(ty.field_at(i).ty()) {
            return false;
        }
    }
    true
}
