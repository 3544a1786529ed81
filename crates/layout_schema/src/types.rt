//! The types of a schema, as a definition.

ghost use Rattle.std.specs.Prelude.{◌≡◌, if◌then◌else◌, IfOk, IfErr};
ghost use Rattle.frozen_model.specs.Layouts.{Version1, Version2};
ghost use Rattle.idl_profile.specs.Types.{root_of};
ghost use Rattle.idl_parse.specs.Parsed.{definition_of};
ghost use Rattle.layout_schema.specs.Schemas.{schema_type};
ghost use Rattle.layout_schema.specs.SchemaText.{schema_text};

use crate::fault::SchemaFault;
use std::alloc::Global;
use thrift_idl::{Definition, parse};

// The text of the types of version 2 where layouts have a base, and else of version 1.
fn types_text(based: bool) -> &'static [u8]
    ensures { result.now ≡ schema_text (if based then Version2 else Version1) }
{
    if based {
        b"struct Field {\n  \
            1: i16 layoutId;\n  \
            2: i16 offset = 0;\n}\n\
          struct Layout {\n  \
            1: i32 size = 0;\n  \
            2: i16 bits = 0;\n  \
            3: map<i16,Field> fields;\n  \
            4: string typeName;\n  \
            5: i64 base = 0;\n}\n\
          struct Schema {\n  \
            1: bool relaxTypeChecks = false;\n  \
            2: map<i16,Layout> layouts;\n  \
            3: i16 rootLayout = 0;\n  \
            4: i32 fileVersion = 0;\n}\n"
    } else {
        b"struct Field {\n  \
            1: i16 layoutId;\n  \
            2: i16 offset = 0;\n}\n\
          struct Layout {\n  \
            1: i32 size = 0;\n  \
            2: i16 bits = 0;\n  \
            3: map<i16,Field> fields;\n  \
            4: string typeName;\n}\n\
          struct Schema {\n  \
            1: bool relaxTypeChecks = false;\n  \
            2: map<i16,Layout> layouts;\n  \
            3: i16 rootLayout = 0;\n  \
            4: i32 fileVersion = 0;\n}\n"
    }
}

/// A definition whose root is the type `Schema` of version 2 where layouts have a base, and else of
/// version 1.
pub(crate) fn schema_definition(alloc: Global, based: bool) -> Result<Definition, SchemaFault>
    ensures root { IfOk result (λ types.
        root_of (definition_of types) ≡ schema_type (if based then Version2 else Version1)) }
    ensures full { IfErr result (λ fault. fault ≡ SchemaFault.NoMemory) }
{
    match parse(alloc, types_text(based)) {
        Ok(types) => Ok(types),
        Err(_) => Err(SchemaFault::NoMemory),
    }
}
