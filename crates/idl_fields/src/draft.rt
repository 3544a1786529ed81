//! What has been read of a text.

use base_lists::Span;
use idl_profile::{BaseType, Need};

/// A type of the definition: an enum or a struct by its place among them, a list, a set or a map by the places of its parts
/// among the types.
#[derive(Clone, Copy, Debug)]
pub enum TypeNode {
    Base(BaseType),
    Enum(u32),
    Struct(u32),
    List(u32),
    Set(u32),
    Map(u32, u32),
}

/// A type that is one word: a base type, or a name by its place among the names that stand for types.
#[derive(Clone, Copy, Debug)]
pub enum TypeWord {
    Base(BaseType),
    Name(u32),
}

/// The word that begins a container.
#[derive(Clone, Copy, Debug)]
pub enum Opening {
    List,
    Set,
    Map,
}

/// A type's first word: a whole type, or a container whose parts follow.
#[derive(Clone, Copy, Debug)]
pub enum Head {
    Plain(TypeWord),
    Open(Opening),
}

/// A container around a type; a map with its keys.
#[derive(Clone, Copy, Debug)]
pub enum Container {
    List,
    Set,
    Map(TypeWord),
}

/// A type as it is written: its innermost word, and the containers around it, the innermost first.
#[derive(Debug, Drop)]
pub struct WrittenType {
    pub word: TypeWord,
    pub around: Vec<Container>,
}

/// What a type is outermost. A default is judged by it.
#[derive(Clone, Copy, Debug)]
pub enum Outermost {
    Base(BaseType),
    Enum(u32),
    Struct(u32),
    List,
    Set,
    Map,
}

/// A name that may stand for a type.
#[derive(Debug, Drop)]
pub struct Entry {
    pub name: Span,
    pub ty: TypeNode,
}

/// The id of a field.
#[derive(Clone, Copy, Debug)]
pub struct Id {
    pub id: i16,
}

/// A number that was read.
#[derive(Clone, Copy, Debug)]
pub struct Whole {
    pub value: i64,
}

#[derive(Clone, Copy, Debug)]
pub enum Default {
    Without,
    Flag(bool),
    Int(Whole),
    Text(Span),
    Empty,
}

/// A default's first token: all of it, or a bracket that has to close at once.
#[derive(Clone, Copy, Debug)]
pub enum Start {
    Complete(Default),
    ClosedBy(u8),
}

/// What a field says before its default.
#[derive(Debug, Drop)]
pub struct Typed {
    pub need: Need,
    pub ty: WrittenType,
    pub name: Span,
}

/// A field as it is written.
#[derive(Debug, Drop)]
pub struct WrittenField {
    pub id: Id,
    pub need: Need,
    pub ty: WrittenType,
    pub name: Span,
    pub default: Default,
}

/// A field of a struct of the definition.
#[derive(Debug, Drop)]
pub struct DraftField {
    pub id: Id,
    pub need: Need,
    pub ty: TypeNode,
    pub name: Span,
    pub default: Default,
}

#[derive(Clone, Copy, Debug)]
pub struct Member {
    pub name: Span,
    pub number: Whole,
}

/// An enum or a struct of the definition.
#[derive(Debug, Drop)]
pub enum DraftNamed {
    Enum(Span, Vec<Member>),
    Struct(Span, Vec<DraftField>),
}

/// What a struct says.
#[derive(Debug, Drop)]
pub struct Parts {
    pub name: Span,
    pub fields: Vec<WrittenField>,
}

/// What a typedef says.
#[derive(Debug, Drop)]
pub struct Alias {
    pub name: Span,
    pub ty: WrittenType,
}
