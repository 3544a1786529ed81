//! The line of a node.
ghost use Rattle.std.specs.Prelude.{◌≡◌, ◌++◌, OnOk, string_bytes};
ghost use Rattle.std.specs.Fmt.{signed_decimal};
ghost use Rattle.layout_tree.specs.Nodes.{layout_of};
ghost use Rattle.layout_schema.specs.Schemas.{type_name as name_of_kind, base_in};
ghost use Rattle.cli_texts.specs.Listing.{column, parent_columns, base_column, line};

use itoa::Buffer;
use layout_tree::{Kind, Layouts, NodeSpec};
use std::alloc::AllocError;
use std::string::String;

// A number in decimal digits.
fn push_number(out: &mut String, n: i64) -> Result<(), AllocError>
    ensures { OnOk result (string_bytes out.new ≡ string_bytes out.old ++ signed_decimal n) }
{
    let mut buffer = Buffer::new();
    out.push_str(buffer.format(n))
}

fn push_column(out: &mut String, n: i64) -> Result<(), AllocError>
    ensures { OnOk result (string_bytes out.new ≡ string_bytes out.old ++ column n) }
{
    out.push_str(" ")?;
    push_number(out, n)
}

fn type_name(kind: Kind) -> &'static str
    ensures { result.now ≡ name_of_kind kind }
{
    match kind {
        Kind::Flag => "bool",
        Kind::I8 => "i8",
        Kind::I16 => "i16",
        Kind::I32 => "i32",
        Kind::I64 => "i64",
        Kind::Text => "string",
        Kind::Bytes => "binary",
        Kind::List => "list",
        Kind::Set => "set",
        Kind::Map => "map",
        Kind::Pair => "pair",
        Kind::Struct => "struct",
        Kind::Optional => "optional",
        Kind::Size => "size",
    }
}

// The base of a leaf of whole numbers, 0 at another node.
fn base_of(spec: &NodeSpec) -> i64
    ensures { result ≡ base_in spec.now }
{
    let spec = *spec;
    match spec.kind {
        Kind::I8 | Kind::I16 | Kind::I32 | Kind::I64 => spec.base,
        _ => 0,
    }
}

fn push_parent(out: &mut String, node: u32, spec: &NodeSpec) -> Result<(), AllocError>
    ensures { OnOk result (string_bytes out.new ≡ string_bytes out.old ++ parent_columns node spec.now) }
{
    if node == 0 {
        return out.push_str(" - -");
    }
    push_column(out, i64::from(spec.parent))?;
    push_column(out, i64::from(spec.field))
}

fn push_base(out: &mut String, layouts: &Layouts, spec: &NodeSpec) -> Result<(), AllocError>
    ensures { OnOk result (string_bytes out.new
        ≡ string_bytes out.old ++ base_column (layout_of layouts.now).version spec.now) }
{
    if layouts.version() == 1 {
        return Ok(());
    }
    push_column(out, base_of(spec))
}

/// Writes the line of a node by its number, as the version of the layouts has it.
///
/// # Errors
///
/// `AllocError` where memory runs out, and nowhere else.
pub fn push_line(
    out: &mut String,
    layouts: &Layouts,
    node: u32,
    spec: &NodeSpec,
) -> Result<(), AllocError>
    ensures { OnOk result (string_bytes out.new
        ≡ string_bytes out.old ++ line (layout_of layouts.now).version node spec.now) }
{
    push_number(out, i64::from(node))?;
    push_parent(out, node, spec)?;
    out.push_str(" ")?;
    out.push_str(type_name(spec.kind))?;
    push_column(out, i64::from(spec.bits))?;
    push_column(out, i64::from(spec.offset))?;
    push_base(out, layouts, spec)?;
    out.push_str("\n")?;
    Ok(())
}
