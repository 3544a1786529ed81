//! Why a part of a file is not written.
ghost use Rattle.std.specs.Prelude.{◌≡◌};
ghost use Rattle.lens_values.specs.declared.fault.ThawFault.TheVariants.{NoMemory};
ghost use Rattle.lens_values.specs.declared.fault.Halt.TheVariants as halts;

use std::alloc::AllocError;
use thiserror::Error;

/// Why a part of a file is not written.
#[derive(Clone, Copy, Debug, PartialEq, Eq, Error)]
pub enum ThawFault {
    /// The part has so many cells, more than a value may have. For 2^64 or more the number is 2^64 - 1.
    #[error("the value has {0} cells, more than 33554432")]
    TooManyCells(u64),
    /// There is not enough memory.
    #[error("out of memory")]
    NoMemory,
}

impl From<AllocError> for ThawFault {
    ghost from_gives = { λ _ f. f ≡ NoMemory };

    fn from(_: AllocError) -> ThawFault {
        ThawFault::NoMemory
    }
}

/// Why the writing of a part stops short of its end.
#[derive(Clone, Copy, Debug)]
pub(crate) enum Halt {
    /// There is not enough memory.
    NoMemory,
    /// The part has more cells than a value may have.
    TooMany,
}

impl From<AllocError> for Halt {
    ghost from_gives = { λ _ h. h ≡ halts.NoMemory };

    fn from(_: AllocError) -> Halt {
        Halt::NoMemory
    }
}
