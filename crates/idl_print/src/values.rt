//! The text of defaults, fields and members.
ghost use Rattle.std.specs.Prelude.{◌≡◌, ◌++◌, ◌∷◌, [], OnOk, ℕ, List, codes, string_bytes};
ghost use Rattle.std.specs.Fmt.{signed_decimal};
ghost use Rattle.idl_profile.specs.Meaning.{Ty};
ghost use Rattle.idl_fields.specs.Nodes.{node_type};
ghost use Rattle.idl_fields.specs.View.{types_in, nameds_of, default_of, field_of, fields_of, member_of};
ghost use Rattle.idl_print.specs.Printed.{need_text as need_text_of, has_quote as has_quote_of, quote as quote_of, member_text};
ghost use Rattle.idl_print.specs.Written.{empty_text as empty_text_of, default_text, declared_text, field_text};

use crate::types::{push_number, push_type};
use base_lists::text_at;
use idl_fields::TypeNodes;
use idl_fields::draft::{Default, DraftField, DraftNamed, Member, TypeNode};
use idl_profile::Need;
use std::alloc::AllocError;
use std::string::String;

fn need_text(need: Need) -> &'static str
    ensures { result.now ≡ need_text_of need }
{
    match need {
        Need::Plain => "",
        Need::Required => "required ",
        Need::Optional => "optional ",
    }
}

fn has_quote(literal: &str) -> bool
    ensures { result ≡ has_quote_of literal.now }
{
    literal.as_bytes().iter().any(|c| *c == b'"')
}

// What a literal stands between.
fn quote(literal: &str) -> &'static str
    ensures { result.now ≡ quote_of literal.now ∷ [] }
{
    if has_quote(literal) { "'" } else { "\"" }
}

fn empty_text(node: TypeNode) -> &'static str
    ensures { (types : List Ty) → result.now ≡ empty_text_of (node_type types node) }
{
    match node {
        TypeNode::List(_) => "[]",
        TypeNode::Set(_) => "[]",
        TypeNode::Base(_) => "{}",
        TypeNode::Enum(_) => "{}",
        TypeNode::Struct(_) => "{}",
        TypeNode::Map(_, _) => "{}",
    }
}

// Writes what stands between a field's name and its semicolon.
fn push_default(
    out: &mut String,
    text: &str,
    node: TypeNode,
    default: &Default,
) -> Result<(), AllocError>
    ensures { (types : List Ty) → OnOk result (string_bytes out.new ≡ string_bytes out.old ++ default_text (node_type types node) (default_of text.now default.now)) }
{
    match default {
        Default::Without => Ok(()),
        Default::Flag(true) => out.push_str(" = true"),
        Default::Flag(false) => out.push_str(" = false"),
        Default::Int(n) => {
            out.push_str(" = ")?;
            push_number(out, n.value)
        }
        Default::Text(span) => {
            let literal = text_at(text, *span);
            let quote = quote(literal);
            out.push_str(" = ")?;
            out.push_str(quote)?;
            out.push_str(literal)?;
            out.push_str(quote)
        }
        Default::Empty => {
            out.push_str(" = ")?;
            out.push_str(empty_text(node))
        }
    }
}

// Writes what stands before a field's type.
fn push_field_start(out: &mut String, field: &DraftField) -> Result<(), AllocError>
    ensures { OnOk result (string_bytes out.new ≡ string_bytes out.old ++ (codes "  " ++ signed_decimal field.now.id.id ++ codes ": " ++ need_text_of field.now.need)) }
{
    out.push_str("  ")?;
    push_number(out, field.id.id as i64)?;
    out.push_str(": ")?;
    out.push_str(need_text(field.need))
}

// Writes what stands before a field's default.
fn push_declared(
    out: &mut String,
    text: &str,
    named: &[DraftNamed],
    types: &TypeNodes,
    field: &DraftField,
) -> Result<(), AllocError>
    ensures { OnOk result (string_bytes out.new ≡ string_bytes out.old ++ declared_text (nameds_of text.now (types_in types.now) named.now) (field_of text.now (types_in types.now) field.now)) }
{
    push_field_start(out, field)?;
    push_type(out, text, named, types, field.ty)?;
    out.push_str(" ")?;
    out.push_str(text_at(text, field.name))
}

/// Writes the line of a field.
pub fn push_field(
    out: &mut String,
    text: &str,
    named: &[DraftNamed],
    types: &TypeNodes,
    field: &DraftField,
) -> Result<(), AllocError>
    ensures { OnOk result (string_bytes out.new ≡ string_bytes out.old ++ field_text (nameds_of text.now (types_in types.now) named.now) (field_of text.now (types_in types.now) field.now)) }
{
    push_declared(out, text, named, types, field)?;
    push_default(out, text, field.ty, &field.default)?;
    out.push_str(";\n")
}

/// Writes the line of a member.
pub fn push_member(out: &mut String, text: &str, member: &Member) -> Result<(), AllocError>
    ensures { OnOk result (string_bytes out.new ≡ string_bytes out.old ++ member_text (member_of text.now member.now)) }
{
    out.push_str("  ")?;
    out.push_str(text_at(text, member.name))?;
    out.push_str(" = ")?;
    push_number(out, member.number.value)?;
    out.push_str(",\n")
}
