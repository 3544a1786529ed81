//! The text of types.
ghost use Rattle.std.specs.Prelude.{◌≡◌, ◌++◌, List, OnOk, string_bytes};
ghost use Rattle.std.specs.Fmt.{signed_decimal};
ghost use Rattle.idl_profile.specs.Meaning.{Ty};
ghost use Rattle.idl_fields.specs.Nodes.{node_type};
ghost use Rattle.idl_fields.specs.View.{types_in, nameds_of};
ghost use Rattle.idl_print.specs.Written.{name_at as name_of_number, scalar_text as scalar_text_of, type_text};

use base_lists::text_at;
use idl_fields::TypeNodes;
use idl_fields::draft::{DraftNamed, TypeNode};
use idl_profile::BaseType;
use itoa::Buffer;
use std::alloc::AllocError;
use std::string::String;

// A number in decimal digits.
pub fn push_number(out: &mut String, n: i64) -> Result<(), AllocError>
    ensures { OnOk result (string_bytes out.new ≡ string_bytes out.old ++ signed_decimal n) }
{
    let mut buffer = Buffer::new();
    out.push_str(buffer.format(n))
}

fn base_text(s: BaseType) -> &'static str
    ensures { result.now ≡ scalar_text_of s }
{
    match s {
        BaseType::Flag => "bool",
        BaseType::I8 => "i8",
        BaseType::I16 => "i16",
        BaseType::I32 => "i32",
        BaseType::I64 => "i64",
        BaseType::Text => "string",
        BaseType::Bytes => "binary",
    }
}

// The name of the enum or struct of this number, where there is one.
fn name_at<'a>(text: &'a str, named: &[DraftNamed], n: u32) -> &'a str
    ensures { (types : List Ty) → result.now ≡ name_of_number (nameds_of text.now types named.now) n }
{
    match named.get(n as usize) {
        Some(DraftNamed::Enum(w, _)) => text_at(text, *w),
        Some(DraftNamed::Struct(w, _)) => text_at(text, *w),
        None => "bool",
    }
}

/// Writes a type; an enum or struct by its name.
pub fn push_type(
    out: &mut String,
    text: &str,
    named: &[DraftNamed],
    types: &TypeNodes,
    node: TypeNode,
) -> Result<(), AllocError>
    ensures { OnOk result (string_bytes out.new ≡ string_bytes out.old ++ type_text (nameds_of text.now (types_in types.now) named.now) (node_type (types_in types.now) node)) }
{
    match node {
        TypeNode::Base(s) => out.push_str(base_text(s)),
        TypeNode::Enum(n) => out.push_str(name_at(text, named, n)),
        TypeNode::Struct(n) => out.push_str(name_at(text, named, n)),
        TypeNode::List(x) => {
            out.push_str("list<")?;
            push_type(out, text, named, types, types.at(x))?;
            out.push_str(">")
        }
        TypeNode::Set(x) => {
            out.push_str("set<")?;
            push_type(out, text, named, types, types.at(x))?;
            out.push_str(">")
        }
        TypeNode::Map(x, y) => {
            out.push_str("map<")?;
            push_type(out, text, named, types, types.at(x))?;
            out.push_str(",")?;
            push_type(out, text, named, types, types.at(y))?;
            out.push_str(">")
        }
    }
}
