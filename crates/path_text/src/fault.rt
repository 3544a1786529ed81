//! Why a text is no path, or a path does not fit a type.
ghost use Rattle.std.specs.Prelude.{◌≡◌};
ghost use Rattle.path_text.specs.declared.fault.PathFault.TheVariants.{NoMemory};

use std::alloc::{AllocError, AllocFailed};
use thiserror::Error;

/// Why a text is no path, or a path does not fit a type (docs/PATHS.md). The numbers are 1 to 4 in this order,
/// and `NoMemory` has none. Each carries the byte of the path's text where a step begins, from 0.
#[derive(Clone, Copy, Debug, PartialEq, Eq, Error)]
pub enum PathFault {
    /// No step begins at this byte, and the text goes on.
    #[error("no step of a path begins at byte {0}")]
    PathSyntax(u64),
    /// The struct has no field of this name.
    #[error("the step at byte {0} names no field of the struct")]
    NoField(u64),
    /// The step is none of the type reached: a field stands at a struct, an index at a list, a key at a set or
    /// a map. A scan has it at the path's length, where the type there has no items.
    #[error("the step at byte {0} is none of the type reached")]
    NotAStep(u64),
    /// The key is none of the container's type of keys, or its number is outside that type.
    #[error("the step at byte {0} has no key of the container")]
    BadKey(u64),
    /// There is not enough memory.
    #[error("out of memory")]
    NoMemory,
}

impl From<AllocError> for PathFault {
    ghost from_gives = { λ _ f. f ≡ NoMemory };

    fn from(_: AllocError) -> PathFault {
        PathFault::NoMemory
    }
}

impl<T: Drop> From<AllocFailed<T>> for PathFault {
    ghost from_gives = { λ _ f. f ≡ NoMemory };

    fn from(_: AllocFailed<T>) -> PathFault {
        PathFault::NoMemory
    }
}
