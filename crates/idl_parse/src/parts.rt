//! What a definition is made of, for the crate that prints it.
ghost use Rattle.std.specs.Prelude.{◌≡◌};
ghost use Rattle.idl_fields.specs.View.{types_in, nameds_of};
ghost use Rattle.idl_parse.specs.Parsed.{definition_in, definition_of, DefText};

use crate::definition::Definition;
use idl_fields::TypeNodes;
use idl_fields::draft::DraftNamed;

/// The text that the definition was read from, and the enums and structs in their order, with their names and texts in it, and
/// the list of their types. `thrift_idl` does not pass it on.
pub fn parts_of(def: &Definition) -> (&str, &[DraftNamed], &TypeNodes)
    ensures is { definition_in (nameds_of result.0.now (types_in result.2.now) result.1.now) ≡ definition_of def.now }
    ensures means { DefText result.0.now (definition_of def.now) }
{
    (def.text.as_str(), def.named.as_slice(), &def.types)
}
