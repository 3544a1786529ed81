//! Where reading stops, and why a value was not read.

ghost use Rattle.std.specs.Prelude.{◌≡◌};
ghost use Rattle.exact_reading.specs.declared.stop.ReadError.TheVariants.{NoMemory};
ghost use Rattle.exact_reading.specs.declared.stop.ReadError.TheVariants as errors;

use std::alloc::{AllocError, AllocFailed};
use thiserror::Error;

/// Where a reader stops.
#[derive(Clone, Copy, Debug, Error)]
pub enum Stop {
    /// The items end within a text.
    #[error("the text ends too early")]
    Ended,
    /// An item can't stand where it is. There are so many items from it to the end.
    #[error("an item can't stand where it is, {0} from the end")]
    Refused(usize),
}

/// Why a value was not read: want of memory, or where the reader stops, for most readers as a [`Stop`].
#[derive(Debug, Drop)]
pub enum ReadError<E> {
    NoMemory,
    Stop(E),
}

impl ReadError<Stop> {
    /// The items end within a text.
    pub fn ended() -> ReadError<Stop>
        ensures { result ≡ ReadError.Stop Stop.Ended }
    {
        ReadError::Stop(Stop::Ended)
    }

    /// An item can't stand where it is, with so many items from it to the end.
    pub fn refused(left: usize) -> ReadError<Stop>
        ensures { result ≡ ReadError.Stop (Stop.Refused left) }
    {
        ReadError::Stop(Stop::Refused(left))
    }
}

impl From<Stop> for ReadError<Stop> {
    ghost from_gives = { λ stop e. e ≡ errors.Stop stop };

    fn from(stop: Stop) -> ReadError<Stop> {
        ReadError::Stop(stop)
    }
}

impl<E> From<AllocError> for ReadError<E> {
    ghost from_gives = { λ _ e. e ≡ NoMemory };

    fn from(_e: AllocError) -> ReadError<E> {
        ReadError::NoMemory
    }
}

impl<T: Drop, E> From<AllocFailed<T>> for ReadError<E> {
    ghost from_gives = { λ _ e. e ≡ NoMemory };

    fn from(_e: AllocFailed<T>) -> ReadError<E> {
        ReadError::NoMemory
    }
}
