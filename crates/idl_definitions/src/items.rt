//! What a definition or a header adds to what was defined.
use base_lists::Span;
use idl_fields::draft::{Alias, Member, Parts};
use name_index::NameIndex;

/// What an enum says, with the index of its members' names.
#[derive(Debug, Drop)]
pub struct Choice {
    pub name: Span,
    pub members: Vec<Member>,
    pub names: NameIndex,
}

/// What a definition or a header adds.
#[derive(Debug, Drop)]
pub enum Item {
    Nothing,
    Alias(Alias),
    Choice(Choice),
    Structure(Parts),
}

/// What begins with a word where a definition stands.
#[derive(Clone, Copy, Debug)]
pub enum Begin {
    Namespace,
    Include,
    Typedef,
    Enum,
    Struct,
}
