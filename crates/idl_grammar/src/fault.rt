//! Why a text is no definition.

ghost use Rattle.std.specs.Prelude.{◌≡◌};
ghost use Rattle.exact_reading.specs.declared.stop.ReadError.TheVariants as errors;

use thiserror::Error;

/// What a token has against it, in the order of the numbers.
#[derive(Clone, Copy, Debug, Error)]
pub enum Fault {
    #[error("the token can't stand there")]
    Syntax,
    #[error("the token begins what is not supported")]
    Unsupported,
    #[error("no type has the name")]
    UnknownType,
    #[error("the name stands already")]
    RepeatedName,
    #[error("the id stands already")]
    RepeatedId,
    #[error("the number can't be an id")]
    BadId,
    #[error("the value can't be a default of the type")]
    BadDefault,
    #[error("the type can't be the type of a key")]
    KeyType,
    #[error("the type has too many levels")]
    TooDeep,
    #[error("the type has too many nodes")]
    TooManyNodes,
    #[error("the struct has too many fields")]
    StructTooWide,
}

/// The fault of the first faulty token, and its line.
#[derive(Clone, Copy, Debug, Error)]
#[error("line {line}: {fault}")]
pub struct LineFault {
    pub fault: Fault,
    pub line: u32,
}

/// Why nothing was read: want of memory, or the first faulty token.
pub type ReadError = exact_reading::ReadError<LineFault>;

impl From<LineFault> for exact_reading::ReadError<LineFault> {
    ghost from_gives = { λ fault e. e ≡ errors.Stop fault };

    fn from(fault: LineFault) -> exact_reading::ReadError<LineFault> {
        exact_reading::ReadError::Stop(fault)
    }
}
