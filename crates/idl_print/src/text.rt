//! The text of enums and structs.
ghost use Rattle.std.specs.Prelude.{◌≡◌, ◌++◌, OnOk, IfOk, ℕ, List, map, string_bytes};
ghost use Rattle.std.specs.List.{flat_map};
ghost use Rattle.idl_parse.specs.Parsed.{definition_in};
ghost use Rattle.idl_fields.specs.View.{types_in, nameds_of, named_of, field_of, member_of};
ghost use Rattle.idl_print.specs.Printed.{member_text, printed};
ghost use Rattle.idl_print.specs.Written.{field_text, named_text};

use crate::values::{push_field, push_member};
use base_lists::text_at;
use idl_fields::TypeNodes;
use idl_fields::draft::{DraftField, DraftNamed, Member};
use std::alloc::{AllocError, Global};
use std::string::String;

fn push_members(out: &mut String, text: &str, members: &[Member]) -> Result<(), AllocError>
    ensures { OnOk result (string_bytes out.new ≡ string_bytes out.old ++ flat_map member_text (map (member_of text.now) members.now)) }
{
    for member in members {
        push_member(out, text, member)?;
    }
    Ok(())
}

fn push_fields(
    out: &mut String,
    text: &str,
    named: &[DraftNamed],
    types: &TypeNodes,
    fields: &[DraftField],
) -> Result<(), AllocError>
    ensures { OnOk result (string_bytes out.new ≡ string_bytes out.old ++ flat_map (field_text (nameds_of text.now (types_in types.now) named.now)) (map (field_of text.now (types_in types.now)) fields.now)) }
{
    for field in fields {
        push_field(out, text, named, types, field)?;
    }
    Ok(())
}

// Writes an enum or a struct.
fn push_named(
    out: &mut String,
    text: &str,
    named: &[DraftNamed],
    types: &TypeNodes,
    one: &DraftNamed,
) -> Result<(), AllocError>
    ensures { OnOk result (string_bytes out.new ≡ string_bytes out.old ++ named_text (nameds_of text.now (types_in types.now) named.now) (named_of text.now (types_in types.now) one.now)) }
{
    match one {
        DraftNamed::Enum(name, members) => {
            out.push_str("enum ")?;
            out.push_str(text_at(text, *name))?;
            out.push_str(" {\n")?;
            push_members(out, text, members)?;
            out.push_str("}\n")
        }
        DraftNamed::Struct(name, fields) => {
            out.push_str("struct ")?;
            out.push_str(text_at(text, *name))?;
            out.push_str(" {\n")?;
            push_fields(out, text, named, types, fields)?;
            out.push_str("}\n")
        }
    }
}

/// The text of these enums and structs, whose names and texts stand in the text that they were read from.
///
/// # Errors
///
/// `AllocError` where memory runs out, and nowhere else.
#[tactic(auto, using(crate::proofs::AnyText::still_more))]
pub fn print_named(
    alloc: Global,
    text: &str,
    named: &[DraftNamed],
    types: &TypeNodes,
) -> Result<String, AllocError>
    ensures { IfOk result (λ out. string_bytes out ≡ printed (definition_in (nameds_of text.now (types_in types.now) named.now))) }
{
    let mut out = String::new(alloc);
    for (i, one) in named.iter().enumerate() {
        push_named(&mut out, text, &named[..i], types, one)?;
    }
    Ok(out)
}
