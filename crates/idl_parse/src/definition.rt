//! Definitions, and what refers to their types and fields.
ghost use Rattle.std.specs.Prelude.{◌≡◌, ◌<◌, ◌^◌, true, length, vec_len, string_bytes};
ghost use Rattle.std.specs.List.{list_any, list_all, All, Contains};
ghost use Rattle.idl_tokens.specs.Tokens.{tokens};
ghost use Rattle.idl_profile.specs.DefText.{DefTokens};
ghost use Rattle.idl_fields.specs.View.{types_in, nameds_of};
ghost use Rattle.idl_parse.specs.Drafts.{is_struct, has_few, rising, fields_at};

use idl_fields::TypeNodes;
use idl_fields::draft::{DraftField, DraftNamed, TypeNode};
use std::string::String;

/// A definition: the enums and structs that a text defines, in the order of the text. Typedefs are resolved, and fields stand by rising id.
#[derive(Debug, Drop)]
pub struct Definition {
    pub(crate) text: String,
    pub(crate) named: Vec<DraftNamed>,
    pub(crate) types: TypeNodes,
    ghost rooted: { list_any is_struct named.items ≡ true },
    ghost few: { list_all has_few named.items ≡ true },
    ghost counted: { vec_len named < 2 ^ 32 },
    ghost limited: { length (string_bytes text) < 2 ^ 31 },
    ghost meant: { ∥ DefTokens (tokens (string_bytes text)) (nameds_of (string_bytes text) (types_in types) named.items) ∥₁ },
}

/// The default of a field, as it is written.
#[derive(Clone, Copy, Debug)]
pub enum DefaultRef<'a> {
    /// None is written.
    Without,
    Flag(bool),
    /// A number, also of an enum.
    Int(i64),
    /// What stands between the quotes.
    Text(&'a str),
    /// `[]` or `{}`.
    Empty,
}

/// A type of a definition.
#[derive(Clone, Copy)]
pub struct TypeRef<'a> {
    pub(crate) def: &'a Definition,
    // How many of the enums and structs, from the first on, it may name.
    pub(crate) within: u32,
    pub(crate) node: TypeNode,
}

/// A field of a struct of a definition.
#[derive(Clone, Copy)]
pub struct FieldRef<'a> {
    pub(crate) def: &'a Definition,
    // The number of its struct among the enums and structs. Its type may name those before.
    pub(crate) within: u32,
    pub(crate) field: &'a DraftField,
    ghost listed: { ∥ Contains (fields_at def.now.named.items within) field.now ∥₁ },
}

/// The fields of a struct of a definition, in the order of rising ids; of a type that is no struct there are none.
#[derive(Clone, Copy)]
pub struct FieldRefs<'a> {
    pub(crate) def: &'a Definition,
    // The number of the struct among the enums and structs.
    pub(crate) within: u32,
    pub(crate) fields: &'a [DraftField],
    ghost few: { length fields.now < 2 ^ 32 },
    ghost in_order: { rising fields.now ≡ true },
    ghost listed: { ∥ All (Contains (fields_at def.now.named.items within)) fields.now ∥₁ },
}
