//! The laws of files, as functions whose contracts are the laws.

ghost use Rattle.layout_tree.specs.Nodes.{layout_of, IsSettled};
ghost use Rattle.file_check.specs.Held.{PacksValue};
ghost use Rattle.file_check.specs.Laws.{FilesAreUnique, OpeningHasOneAnswer, OpeningIsExact, FrozenIsFile};

use crate::opened::Opened;
use frozen_laws::packing_is_injective;
use layout_schema::{schemas_are_exact, schemas_are_short, written_schema_is_schema};

/// Bytes are the frozen file of one value in one layout at most.
pub fn files_are_unique()
    ensures { FilesAreUnique }
{
    schemas_are_exact();
    packing_is_injective();
}

/// Each list of bytes has exactly one answer of opening, want of memory aside, and that is a layout and a
/// value exactly where the bytes are the frozen file of that value in that layout. The frozen file of a value
/// in a layout that holds it is such a file.
pub fn opening_is_exact()
    ensures answer { OpeningHasOneAnswer }
    ensures files { OpeningIsExact }
    ensures frozen { FrozenIsFile }
{
    schemas_are_exact();
    written_schema_is_schema();
    schemas_are_short();
}

/// What was opened can be composed again.
pub fn opened_composes(_opened: &Opened<'_>)
    ensures settled { IsSettled _opened.now.layouts }
    ensures content { ∥ PacksValue (layout_of _opened.now.layouts).tree _opened.now.content.now ∥₁ }
{}
