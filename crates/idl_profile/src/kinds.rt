//! Words that the code and the specs share.

/// What a type is.
#[derive(Clone, Copy, Debug, PartialEq, Eq)]
pub enum TypeKind {
    /// A truth value.
    Flag,
    I8,
    I16,
    I32,
    I64,
    Enum,
    /// A string, which is UTF-8.
    Text,
    /// A binary.
    Bytes,
    List,
    Set,
    Map,
    Struct,
}

/// Whether a field has to be there.
#[derive(Clone, Copy, Debug, PartialEq, Eq)]
pub enum Need {
    /// Neither `required` nor `optional` is written.
    Plain,
    Required,
    Optional,
}

/// A type that has a word of its own and nothing inside.
#[derive(Clone, Copy, Debug, PartialEq, Eq)]
pub enum BaseType {
    /// A truth value.
    Flag,
    I8,
    I16,
    I32,
    I64,
    /// A string, which is UTF-8.
    Text,
    /// A binary.
    Bytes,
}
