//! Paths and their steps.

use std::string::String;

/// A key as a path writes it.
#[derive(Debug, Drop)]
pub enum KeyLit {
    /// A number of 64 bits with a sign; also of an enum.
    Int(i64),
    /// `true` or `false`.
    Flag(bool),
    /// What stands between two `"`, without the `\` before `"` and `\`.
    Text(String),
    /// The bytes of hexadecimal digits behind a `#`.
    Bytes(Vec<u8>),
}

/// Where a step leads.
#[derive(Debug, Drop)]
pub enum StepKind {
    /// To the field of this name.
    Field(String),
    /// To the item of a list at this place, from 0.
    Index(u64),
    /// To the item of a set that this key is, or to the value that a map has at it.
    Key(KeyLit),
}

/// A step of a path.
#[derive(Debug, Drop)]
pub struct Step {
    /// The byte of the path's text where the step begins, from 0.
    pub place: u64,
    pub kind: StepKind,
}

/// A path: its steps from the left. Without steps it leads to the whole value.
#[derive(Debug, Drop)]
pub struct Path {
    pub steps: Vec<Step>,
    /// The number of bytes of the path's text.
    pub len: u64,
}
