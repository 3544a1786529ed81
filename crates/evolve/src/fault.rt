//! Why a definition does not bind to a file.
ghost use Rattle.std.specs.Prelude.{◌≡◌};
ghost use Rattle.evolve.specs.declared.fault.BindFault.TheVariants.{NoMemory};

use std::alloc::{AllocError, AllocFailed};
use thiserror::Error;

/// Why a definition does not bind to a file. The numbers are 1 and 2 in this order, and `NoMemory` has none.
/// Each carries the ids of the fields on the way from the root to the first node that does not bind: 3 to an
/// item, 1 and 2 to the two of a pair, 2 to the value of an optional.
#[derive(Debug, Drop, Error)]
pub enum BindFault {
    /// The node is of another kind in the file.
    #[error("a node is of another kind in the file")]
    TypeChanged(Vec<i16>),
    /// The node is a required field that the file lacks.
    #[error("a required field is not in the file")]
    RequiredAbsent(Vec<i16>),
    /// There is not enough memory.
    #[error("out of memory")]
    NoMemory,
}

impl From<AllocError> for BindFault {
    ghost from_gives = { λ _ f. f ≡ NoMemory };

    fn from(_: AllocError) -> BindFault {
        BindFault::NoMemory
    }
}

impl<T: Drop> From<AllocFailed<T>> for BindFault {
    ghost from_gives = { λ _ f. f ≡ NoMemory };

    fn from(_: AllocFailed<T>) -> BindFault {
        BindFault::NoMemory
    }
}
