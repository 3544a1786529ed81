//! Codes, numbers and lengths.

ghost use Rattle.std.specs.Prelude.{◌≡◌, ◌<◌, ◌^◌, ◌++◌, ◌∷◌, [], OnOk, length};
ghost use Rattle.std.specs.Int.{w16, w32, w64};
ghost use Rattle.byteorder.specs.Endian.{big_bytes};
ghost use Rattle.frozen_model.specs.Values.{InBits};
ghost use Rattle.idl_parse.specs.Refs.{type_of_ref};
ghost use Rattle.binary_codec.specs.BinaryEncoding.{code_in_binary as code_for, type_code as code_of_type, flag_byte};
ghost use Rattle.binary_codec.specs.BinaryEncoding.{signed_bytes, sized_bytes};

use byteorder::{BigEndian, ByteOrder};
use std::alloc::AllocError;
use thrift_idl::{TypeKind, TypeRef};

fn kind_code(kind: TypeKind) -> u8
    ensures { result ≡ code_for kind }
{
    match kind {
        TypeKind::Flag => 2,
        TypeKind::I8 => 3,
        TypeKind::I16 => 6,
        TypeKind::I32 | TypeKind::Enum => 8,
        TypeKind::I64 => 10,
        TypeKind::Text | TypeKind::Bytes => 11,
        TypeKind::Struct => 12,
        TypeKind::Map => 13,
        TypeKind::Set => 14,
        TypeKind::List => 15,
    }
}

/// The code of a type's values in Binary Protocol; an enum is an i32.
pub fn type_code(ty: TypeRef<'_>) -> u8
    ensures { result ≡ code_of_type (type_of_ref ty.entry) }
{
    kind_code(ty.kind())
}

/// Appends a bool: the byte 1 or 0.
pub fn push_flag(out: &mut Vec<u8>, x: bool) -> Result<(), AllocError>
    ensures { OnOk result (out.new.items ≡ out.old.items ++ flag_byte x ∷ []) }
{
    out.push(if x { 1 } else { 0 })?;
    Ok(())
}

/// Appends a number of 16 bits.
pub fn push_i16(out: &mut Vec<u8>, x: i64) -> Result<(), AllocError>
    requires { InBits 15 x }
    ensures { OnOk result (out.new.items ≡ out.old.items ++ signed_bytes w16 2 x) }
{
    let mut number = [0_u8; 2];
    BigEndian::write_i16(&mut number, x as i16);
    out.extend_from_slice(&number)
}

/// Appends a number of 32 bits.
pub fn push_i32(out: &mut Vec<u8>, x: i64) -> Result<(), AllocError>
    requires { InBits 31 x }
    ensures { OnOk result (out.new.items ≡ out.old.items ++ signed_bytes w32 4 x) }
{
    let mut number = [0_u8; 4];
    BigEndian::write_i32(&mut number, x as i32);
    out.extend_from_slice(&number)
}

/// Appends a number of 64 bits.
pub fn push_i64(out: &mut Vec<u8>, x: i64) -> Result<(), AllocError>
    ensures { OnOk result (out.new.items ≡ out.old.items ++ signed_bytes w64 8 x) }
{
    let mut number = [0_u8; 8];
    BigEndian::write_i64(&mut number, x);
    out.extend_from_slice(&number)
}

/// Appends a length or a size.
pub fn push_size(out: &mut Vec<u8>, count: u32) -> Result<(), AllocError>
    ensures { OnOk result (out.new.items ≡ out.old.items ++ big_bytes 4 count) }
{
    let mut number = [0_u8; 4];
    BigEndian::write_u32(&mut number, count);
    out.extend_from_slice(&number)
}

/// Appends a length and the bytes.
pub fn push_sized(out: &mut Vec<u8>, bytes: &[u8]) -> Result<(), AllocError>
    requires { length bytes.now < 2 ^ 31 }
    ensures { OnOk result (out.new.items ≡ out.old.items ++ sized_bytes bytes.now) }
{
    push_size(out, bytes.len() as u32)?;
    out.extend_from_slice(bytes)
}
