//! The laws of a value's own file, as public functions whose contracts are the laws.

ghost use Rattle.demo_table.specs.Laws.{OwnFileOpens, OwnFileIsShort, OwnFileIsRead, OwnFileThaws};

use evolve::{binding_has_one_answer, projection_is_a_value};
use frozen_laws::packing_is_injective;
use layout_schema::{schemas_are_exact, schemas_are_short, written_schema_is_schema};

/// The frozen file of a value of a definition's root, in a layout of its kinds that holds the value, is a
/// file of that layout and value, and the definition binds to it.
pub fn own_file_opens()
    ensures { OwnFileOpens }
{
    written_schema_is_schema();
    schemas_are_short();
    binding_has_one_answer();
}

/// The frozen file of a value in its least layout has less than 2^30 bytes, so each command reads it.
pub fn own_file_is_short()
    ensures { OwnFileIsShort }
{
    schemas_are_short();
}

/// What `freeze` gives of a value under a definition is read under the same definition as that value, and
/// `thaw` gives it back in the canonical spelling of the value, and in no other.
pub fn own_file_thaws()
    ensures read { OwnFileIsRead }
    ensures thaws { OwnFileThaws }
{
    schemas_are_exact();
    packing_is_injective();
    binding_has_one_answer();
    projection_is_a_value();
}
