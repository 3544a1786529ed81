// Why a command is refused, its exit status, and the line that says so.
ghost use Rattle.std.specs.Prelude.{◌≡◌, Some, IfOk, string_bytes};
ghost use Rattle.frozen_cli.specs.declared.refusal.Failure.TheVariants.{NoMemory};

use compact_wire::WireFault;
use file_check::OpenFault;
use layout_schema::SchemaFault;
use path_text::PathFault;
use std::alloc::{AllocError, AllocFailed, Global};
use std::fmt;
use std::string::String;
use thrift_idl::DefFault;
use typed_reading::ValueFault;

/// What a named file is read for.
#[derive(Clone, Copy, PartialEq, Eq)]
pub enum Role {
    /// The text of the definition.
    Definition,
    /// The bytes of the value, in Compact Protocol.
    Value,
    /// A frozen file.
    File,
}

/// Why a command is refused.
#[derive(Drop)]
pub enum Refusal {
    /// The words have no form.
    Usage,
    /// No file has the name.
    Missing(Role),
    /// A read of the file failed.
    Unreadable(Role),
    /// The file is longer than its limit.
    TooLarge(Role),
    /// The path has no form, or a step that does not fit the definition; never a want of memory.
    BadPath(PathFault),
    /// The definition is no definition text; the first fault, never a want of memory.
    BadDefinition(DefFault),
    /// The bytes spell no value of the root's type; why, never a want of memory.
    BadValue(ValueFault),
    /// The bytes are no value's frozen file; the first fault, never a want of memory.
    BadFile(OpenFault),
    /// The definition's first node that does not bind to the file is of another kind there; the ids on the
    /// way to it, with dots between them.
    TypeChanged(String),
    /// The definition's first node that does not bind to the file is a required field that is not there; the
    /// ids on the way to it, with dots between them.
    RequiredAbsent(String),
    /// The projected value has nothing at the path.
    Absent,
    /// The part that is asked for has so many cells, which is more than the limit.
    TooManyCells(u64),
}

/// Why a command has no output.
#[derive(Drop)]
pub enum Failure {
    /// It is refused.
    Refused(Refusal),
    /// There is not enough memory.
    NoMemory,
}

impl From<AllocError> for Failure {
    ghost from_gives = { λ _ e. e ≡ NoMemory };

    fn from(_: AllocError) -> Self {
        Failure::NoMemory
    }
}

impl<T: Drop> From<AllocFailed<T>> for Failure {
    ghost from_gives = { λ _ e. e ≡ NoMemory };

    fn from(_: AllocFailed<T>) -> Self {
        Failure::NoMemory
    }
}

impl fmt::Display for Role {
    ghost use Rattle.std.specs.Prelude.{Some};
    ghost use Rattle.frozen_cli.specs.Refusal.{role_name};

    ghost output = { λ role. Some (role_name role) };

    fn fmt<W: fmt::Write>(&self, f: &mut fmt::Formatter<W>) -> fmt::Result {
        match self {
            Role::Definition => write!(f, "definition"),
            Role::Value => write!(f, "value"),
            Role::File => write!(f, "file"),
        }
    }
}

/// The number of a definition's fault, and its line where it has one.
#[derive(Clone, Copy)]
struct FaultText(DefFault);

impl fmt::Display for FaultText {
    ghost use Rattle.std.specs.Prelude.{Some};
    ghost use Rattle.frozen_cli.specs.Refusal.{fault_text};

    ghost output = { λ it. Some (fault_text it.0) };

    fn fmt<W: fmt::Write>(&self, f: &mut fmt::Formatter<W>) -> fmt::Result {
        match self.0 {
            DefFault::NotUtf8 => write!(f, "1"),
            DefFault::Syntax { line } => write!(f, "2 line {line}"),
            DefFault::Unsupported { line } => write!(f, "3 line {line}"),
            DefFault::UnknownType { line } => write!(f, "4 line {line}"),
            DefFault::RepeatedName { line } => write!(f, "5 line {line}"),
            DefFault::RepeatedId { line } => write!(f, "6 line {line}"),
            DefFault::BadId { line } => write!(f, "7 line {line}"),
            DefFault::BadDefault { line } => write!(f, "8 line {line}"),
            DefFault::KeyType { line } => write!(f, "9 line {line}"),
            DefFault::TooDeep { line } => write!(f, "10 line {line}"),
            DefFault::TooManyNodes { line } => write!(f, "11 line {line}"),
            DefFault::StructTooWide { line } => write!(f, "12 line {line}"),
            DefFault::NoRoot => write!(f, "13"),
            DefFault::NoMemory => Ok(()),
        }
    }
}

/// Why bytes spell no struct: the number, and the place where it has one.
#[derive(Clone, Copy)]
struct WireText<'a>(&'a WireFault);

impl fmt::Display for WireText<'_> {
    ghost use Rattle.std.specs.Prelude.{Some};
    ghost use Rattle.frozen_cli.specs.Refusal.{wire_text};

    ghost output = { λ it. Some (wire_text it.0.now) };

    fn fmt<W: fmt::Write>(&self, f: &mut fmt::Formatter<W>) -> fmt::Result {
        match self.0 {
            WireFault::Truncated => write!(f, "1"),
            WireFault::Malformed(place) => write!(f, "2 at {place}"),
            WireFault::Trailing(place) => write!(f, "3 at {place}"),
            WireFault::NoMemory => Ok(()),
        }
    }
}

/// The number of a value's fault, and its node, its field or the cells.
#[derive(Clone, Copy)]
struct ValueText<'a>(&'a ValueFault);

impl fmt::Display for ValueText<'_> {
    ghost use Rattle.std.specs.Prelude.{Some};
    ghost use Rattle.frozen_cli.specs.Refusal.{value_text};

    ghost output = { λ it. Some (value_text it.0.now) };

    fn fmt<W: fmt::Write>(&self, f: &mut fmt::Formatter<W>) -> fmt::Result {
        match self.0 {
            ValueFault::Wire(fault) => write!(f, "wire {}", WireText(fault)),
            ValueFault::RepeatedField { node } => write!(f, "1 node {node}"),
            ValueFault::MissingRequired { node, field } => write!(f, "2 node {node} field {field}"),
            ValueFault::WrongType { node } => write!(f, "3 node {node}"),
            ValueFault::BadText { node } => write!(f, "4 node {node}"),
            ValueFault::RepeatedKey { node } => write!(f, "5 node {node}"),
            ValueFault::TooManyCells { cells } => write!(f, "6 cells {cells}"),
            ValueFault::NoMemory => Ok(()),
        }
    }
}

/// The number of a schema's fault, and the spelling's, its node, its version or its layout.
#[derive(Clone, Copy)]
struct SchemaText<'a>(&'a SchemaFault);

impl fmt::Display for SchemaText<'_> {
    ghost use Rattle.std.specs.Prelude.{Some};
    ghost use Rattle.frozen_cli.specs.Refusal.{schema_text};

    ghost output = { λ it. Some (schema_text it.0.now) };

    fn fmt<W: fmt::Write>(&self, f: &mut fmt::Formatter<W>) -> fmt::Result {
        match self.0 {
            SchemaFault::Spelling(fault) => write!(f, "1 wire {}", WireText(fault)),
            SchemaFault::Fields(node) => write!(f, "2 node {node}"),
            SchemaFault::Version(version) => write!(f, "3 version {version}"),
            SchemaFault::Shape(layout) => write!(f, "4 layout {layout}"),
            SchemaFault::NoMemory => Ok(()),
        }
    }
}

/// The number of a file's fault, and what it tells.
#[derive(Clone, Copy)]
struct OpenText<'a>(&'a OpenFault);

impl fmt::Display for OpenText<'_> {
    ghost use Rattle.std.specs.Prelude.{Some};
    ghost use Rattle.frozen_cli.specs.Refusal.{open_text};

    ghost output = { λ it. Some (open_text it.0.now) };

    fn fmt<W: fmt::Write>(&self, f: &mut fmt::Formatter<W>) -> fmt::Result {
        match self.0 {
            OpenFault::NotFrozen => write!(f, "1"),
            OpenFault::Schema(fault) => write!(f, "2 schema {}", SchemaText(fault)),
            OpenFault::Short => write!(f, "3"),
            OpenFault::Long(bytes) => write!(f, "4 bytes {bytes}"),
            OpenFault::Distance { bit, found, wanted } => {
                write!(f, "5 bit {bit} found {found} wanted {wanted}")
            }
            OpenFault::Dirty(bit) => write!(f, "6 bit {bit}"),
            OpenFault::BadText(byte) => write!(f, "7 byte {byte}"),
            OpenFault::KeyOrder(bit) => write!(f, "8 bit {bit}"),
            OpenFault::TooManyCells => write!(f, "9"),
            OpenFault::Range(bit) => write!(f, "10 bit {bit}"),
            OpenFault::NoMemory => Ok(()),
        }
    }
}

/// The number of a path's fault, and the byte where its step begins.
#[derive(Clone, Copy)]
struct PathText<'a>(&'a PathFault);

impl fmt::Display for PathText<'_> {
    ghost use Rattle.std.specs.Prelude.{Some};
    ghost use Rattle.frozen_cli.specs.Refusal.{path_text};

    ghost output = { λ it. Some (path_text it.0.now) };

    fn fmt<W: fmt::Write>(&self, f: &mut fmt::Formatter<W>) -> fmt::Result {
        match self.0 {
            PathFault::PathSyntax(place) => write!(f, "1 at {place}"),
            PathFault::NoField(place) => write!(f, "2 at {place}"),
            PathFault::NotAStep(place) => write!(f, "3 at {place}"),
            PathFault::BadKey(place) => write!(f, "4 at {place}"),
            PathFault::NoMemory => Ok(()),
        }
    }
}

impl fmt::Display for Refusal {
    ghost use Rattle.std.specs.Prelude.{Some};
    ghost use Rattle.frozen_cli.specs.Refusal.{refusal_text};

    ghost output = { λ r. Some (refusal_text r) };

    fn fmt<W: fmt::Write>(&self, f: &mut fmt::Formatter<W>) -> fmt::Result {
        match self {
            Refusal::Usage => write!(f, "usage: frozen COMMAND WORDS"),
            Refusal::Missing(role) => write!(f, "{role} missing"),
            Refusal::Unreadable(role) => write!(f, "{role} unreadable"),
            Refusal::TooLarge(role) => write!(f, "{role} too large"),
            Refusal::BadPath(fault) => write!(f, "path {}", PathText(fault)),
            Refusal::BadDefinition(fault) => write!(f, "definition {}", FaultText(*fault)),
            Refusal::BadValue(fault) => write!(f, "value {}", ValueText(fault)),
            Refusal::BadFile(fault) => write!(f, "file {}", OpenText(fault)),
            Refusal::TypeChanged(ids) => write!(f, "bind 1 at {ids}"),
            Refusal::RequiredAbsent(ids) => write!(f, "bind 2 at {ids}"),
            Refusal::Absent => write!(f, "absent"),
            Refusal::TooManyCells(cells) => write!(f, "result 1 cells {cells}"),
        }
    }
}

impl Refusal {
    ghost use Rattle.frozen_cli.specs.Refusal.{status_of, line_of};

    /// The exit status.
    pub fn status(&self) -> u8
        ensures { result ≡ status_of self.now }
    {
        match self {
            Refusal::Absent => 1,
            Refusal::Usage | Refusal::BadPath(_) => 2,
            Refusal::TooLarge(_)
            | Refusal::BadDefinition(_)
            | Refusal::BadValue(_)
            | Refusal::BadFile(_)
            | Refusal::TypeChanged(_)
            | Refusal::RequiredAbsent(_)
            | Refusal::TooManyCells(_) => 3,
            Refusal::Missing(_) | Refusal::Unreadable(_) => 4,
        }
    }

    /// The line that is written to err, with its newline.
    pub fn line(&self, alloc: Global) -> Result<String, AllocError>
        ensures { IfOk result (λ text. string_bytes text ≡ line_of self.now) }
    {
        format!(in alloc; "{self}\n")
    }
}
