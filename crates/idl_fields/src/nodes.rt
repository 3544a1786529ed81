//! The list of the types of a definition.

ghost use Rattle.std.specs.Prelude.{◌≡◌, true};
ghost use Rattle.idl_fields.specs.Nodes.{are_placed};

use crate::draft::TypeNode;

/// The types of a definition in one list, each behind its parts. A use of a type is its node, and none is copied.
#[derive(Debug, Drop)]
pub struct TypeNodes {
    pub(crate) nodes: Vec<TypeNode>,
    ghost placed: { are_placed 0 nodes.items ≡ true },
}
