//! Printing a definition.
ghost use Rattle.std.specs.Prelude.{◌≡◌, IfOk, string_bytes};
ghost use Rattle.idl_parse.specs.Meant.{DefText};
ghost use Rattle.idl_parse.specs.Parsed.{definition_of};
ghost use Rattle.idl_print.specs.Printed.{printed as printed_of};

use crate::text::print_named;
use idl_parse::{Definition, parts_of};
use std::alloc::{AllocError, Global};
use std::string::String;

/// The text of a definition. It means this definition again.
///
/// # Errors
///
/// `AllocError` where memory runs out, and nowhere else.
pub fn print(alloc: Global, def: &Definition) -> Result<String, AllocError>
    ensures prints { IfOk result (λ s. string_bytes s ≡ printed_of (definition_of def.now)) }
    ensures means { IfOk result (λ s. DefText (string_bytes s) (definition_of def.now)) }
{
    let (text, named, types) = parts_of(def);
    print_named(alloc, text, named, types)
}
