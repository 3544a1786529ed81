//! Why a text is no definition.
ghost use Rattle.std.specs.Prelude.{◌≡◌};
ghost use Rattle.idl_parse.specs.Faults.{fault_of, fault_of_read};
ghost use Rattle.idl_parse.specs.declared.fault.DefFault.TheVariants.{NoMemory};

use idl_grammar::{Fault, LineFault, ReadError};
use std::alloc::AllocError;
use thiserror::Error;

/// Why a text is no definition: the fault at its first faulty token, with the token's line from 1, and of several faults of one token the first in this
/// order. The numbers are 1 to 13 in this order, and `NoMemory` has none.
#[derive(Clone, Copy, Debug, PartialEq, Eq, Error)]
pub enum DefFault {
    /// The text is not UTF-8.
    #[error("not UTF-8")]
    NotUtf8,
    /// The grammar does not allow the token there, or the text ends too early.
    #[error("line {line}: a token that the grammar does not allow there")]
    Syntax { line: u32 },
    /// What the language has and this project does not read.
    #[error("line {line}: not read by this project")]
    Unsupported { line: u32 },
    /// A name where a type stands that is not defined earlier.
    #[error("line {line}: no type of this name is defined earlier")]
    UnknownType { line: u32 },
    /// A name of a type, a field or a member that stood earlier.
    #[error("line {line}: this name stood earlier")]
    RepeatedName { line: u32 },
    /// A field's number that stood earlier in its struct.
    #[error("line {line}: this number stood earlier in the struct")]
    RepeatedId { line: u32 },
    /// A field's number outside 1 to 32,767.
    #[error("line {line}: a field's number is from 1 to 32767")]
    BadId { line: u32 },
    /// A default that its type does not allow, or a member's number outside i32.
    #[error("line {line}: no value of the type")]
    BadDefault { line: u32 },
    /// A type that may not be a key or an element of a set.
    #[error("line {line}: no type of keys and elements")]
    KeyType { line: u32 },
    /// More than 32 containers in one type, or a struct of depth above 32.
    #[error("line {line}: deeper than 32")]
    TooDeep { line: u32 },
    /// A struct with more than 4,096 layout nodes.
    #[error("line {line}: more than 4096 layout nodes")]
    TooManyNodes { line: u32 },
    /// A struct with more than 32,767 greatest inline bits, in itself or in a pair inside.
    #[error("line {line}: more than 32767 inline bits")]
    StructTooWide { line: u32 },
    /// No other fault, and no struct.
    #[error("no struct")]
    NoRoot,
    /// There is not enough memory.
    #[error("out of memory")]
    NoMemory,
}

// The fault of a text whose first faulty token is this.
fn fault_at(line_fault: LineFault) -> DefFault
    ensures { result ≡ fault_of line_fault }
{
    let line = line_fault.line;
    match line_fault.fault {
        Fault::Syntax => DefFault::Syntax { line },
        Fault::Unsupported => DefFault::Unsupported { line },
        Fault::UnknownType => DefFault::UnknownType { line },
        Fault::RepeatedName => DefFault::RepeatedName { line },
        Fault::RepeatedId => DefFault::RepeatedId { line },
        Fault::BadId => DefFault::BadId { line },
        Fault::BadDefault => DefFault::BadDefault { line },
        Fault::KeyType => DefFault::KeyType { line },
        Fault::TooDeep => DefFault::TooDeep { line },
        Fault::TooManyNodes => DefFault::TooManyNodes { line },
        Fault::StructTooWide => DefFault::StructTooWide { line },
    }
}

impl From<ReadError> for DefFault {
    ghost from_gives = { λ e f. f ≡ fault_of_read e };

    fn from(e: ReadError) -> DefFault {
        match e {
            ReadError::NoMemory => DefFault::NoMemory,
            ReadError::Stop(line_fault) => fault_at(line_fault),
        }
    }
}

impl From<AllocError> for DefFault {
    ghost from_gives = { λ _ f. f ≡ NoMemory };

    fn from(_: AllocError) -> DefFault {
        DefFault::NoMemory
    }
}
