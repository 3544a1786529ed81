//! The laws of schemas.

ghost use Rattle.layout_schema.specs.Laws.{WrittenIsSchema, SchemasAreShort, SchemasAreExact, SchemaIsOfOne};

use compact_codec::encoding_is_typed;
use compact_wire::{canon_spells, spelling_is_unique};
use typed_reading::typed_is_a_value;

/// What `write_schema` gives of a layout within the limits is a schema of it.
pub fn written_schema_is_schema()
    ensures { WrittenIsSchema }
{
    encoding_is_typed();
    canon_spells();
}

/// What `write_schema` gives of a layout within the limits has less than 2^20 bytes.
pub fn schemas_are_short()
    ensures { SchemasAreShort }
{}

/// Bytes are a schema of a layout within the limits exactly where none of the conditions of reading fails, and these say
/// this layout. So they are a schema of one layout at most.
pub fn schemas_are_exact()
    ensures exact { SchemasAreExact }
    ensures one { SchemaIsOfOne }
{
    typed_is_a_value();
    spelling_is_unique();
}
