//! Parts of a schema, appended to bytes.

ghost use Rattle.std.specs.Prelude.{◌≡◌, ◌++◌, OnOk, pos};
ghost use Rattle.layout_schema.specs.Schemas.{type_name as name_of_kind, base_in as base_of_node};
ghost use Rattle.layout_schema.specs.Pieces.{signed_number, flag_field, i16_field, i32_field, i64_field};
ghost use Rattle.layout_schema.specs.Pieces.{text_field, map_head, child_bytes, base_bytes};
ghost use Rattle.frozen_model.specs.Layouts.{Version};
ghost use Rattle.layout_tree.specs.Listing.{version_number};

use compact_wire::{push_number, zigzag};
use layout_tree::{Kind, NodeSpec};
use std::alloc::AllocError;

/// The type name of a kind.
pub(crate) fn type_name(kind: Kind) -> &'static [u8]
    ensures { result.now ≡ name_of_kind kind }
{
    match kind {
        Kind::Flag => b"bool",
        Kind::I8 => b"i8",
        Kind::I16 => b"i16",
        Kind::I32 => b"i32",
        Kind::I64 => b"i64",
        Kind::Text => b"string",
        Kind::Bytes => b"binary",
        Kind::List => b"list",
        Kind::Set => b"set",
        Kind::Map => b"map",
        Kind::Pair => b"pair",
        Kind::Struct => b"struct",
        Kind::Optional => b"optional",
        Kind::Size => b"size",
    }
}

/// The base of a leaf of whole numbers, 0 at another node.
pub(crate) fn base_in(node: &NodeSpec) -> i64
    ensures { result ≡ base_of_node node.now }
{
    let node = *node;
    match node.kind {
        Kind::I8 | Kind::I16 | Kind::I32 | Kind::I64 => node.base,
        _ => 0,
    }
}

/// Appends a number of type i16, i32 or i64.
pub(crate) fn push_signed(out: &mut Vec<u8>, number: i64) -> Result<(), AllocError>
    ensures { OnOk result (out.new.items ≡ out.old.items ++ signed_number number) }
{
    push_number(out, zigzag(number))
}

/// Appends a field of type bool with the id after the one before it.
pub(crate) fn push_flag_field(out: &mut Vec<u8>, flag: bool) -> Result<(), AllocError>
    ensures { OnOk result (out.new.items ≡ out.old.items ++ flag_field flag) }
{
    out.push(if flag { 0x11 } else { 0x12 })?;
    Ok(())
}

/// Appends a field of type i16 with the id after the one before it.
pub(crate) fn push_i16_field(out: &mut Vec<u8>, number: i64) -> Result<(), AllocError>
    ensures { OnOk result (out.new.items ≡ out.old.items ++ i16_field number) }
{
    out.push(0x14)?;
    push_signed(out, number)
}

/// Appends a field of type i32 with the id after the one before it.
pub(crate) fn push_i32_field(out: &mut Vec<u8>, number: i64) -> Result<(), AllocError>
    ensures { OnOk result (out.new.items ≡ out.old.items ++ i32_field number) }
{
    out.push(0x15)?;
    push_signed(out, number)
}

/// Appends a field of type i64 with the id after the one before it.
pub(crate) fn push_i64_field(out: &mut Vec<u8>, number: i64) -> Result<(), AllocError>
    ensures { OnOk result (out.new.items ≡ out.old.items ++ i64_field number) }
{
    out.push(0x16)?;
    push_signed(out, number)
}

/// Appends a text field with the id after the one before it.
pub(crate) fn push_text_field(out: &mut Vec<u8>, text: &[u8]) -> Result<(), AllocError>
    ensures { OnOk result (out.new.items ≡ out.old.items ++ text_field text.now) }
{
    out.push(0x18)?;
    push_number(out, text.len() as u64)?;
    out.extend_from_slice(text)
}

/// Appends the head of a map field, from i16 to structs, with the id after the one before it.
pub(crate) fn push_map_head(out: &mut Vec<u8>, size: u32) -> Result<(), AllocError>
    ensures { OnOk result (out.new.items ≡ out.old.items ++ map_head size) }
{
    out.push(0x1B)?;
    if size == 0 {
        out.push(0)?;
        return Ok(());
    }
    push_number(out, u64::from(size))?;
    out.push(0x4C)?;
    Ok(())
}

/// Appends a child's field with what the layout of its parent says of it: its number, and minus its bit offset.
pub(crate) fn push_child(out: &mut Vec<u8>, number: u32, child: &NodeSpec) -> Result<(), AllocError>
    ensures { OnOk result (out.new.items ≡ out.old.items ++ child_bytes number child.now) }
{
    push_signed(out, i64::from(child.field))?;
    push_i16_field(out, i64::from(number))?;
    push_i16_field(out, -i64::from(child.offset))?;
    out.push(0)?;
    Ok(())
}

/// Appends the base of a node, which only version 2 has.
pub(crate) fn push_base(out: &mut Vec<u8>, version: i32, node: &NodeSpec) -> Result<(), AllocError>
    ensures { (v : Version) → version ≡ version_number v
        → OnOk result (out.new.items ≡ out.old.items ++ base_bytes v node.now) }
{
    if version == 2 {
        return push_i64_field(out, base_in(node));
    }
    Ok(())
}
