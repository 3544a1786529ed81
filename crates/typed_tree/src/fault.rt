//! Why trees are not joined into a set or a map.
ghost use Rattle.std.specs.Prelude.{◌≡◌};
ghost use Rattle.typed_tree.specs.declared.fault.TableFault.TheVariants.{NoMemory};

use std::alloc::AllocError;
use thiserror::Error;

/// Why trees are not joined into a set or a map.
#[derive(Error, Clone, Copy, Debug, PartialEq, Eq)]
pub enum TableFault {
    /// A key stands at two places among the keys, counted from 0: `second` is the least place whose key stands at an
    /// earlier one too, which is `first`.
    #[error("key {second} stands at place {first} too")]
    RepeatedKey { first: u64, second: u64 },
    /// There is no memory.
    #[error("no memory")]
    NoMemory,
}

impl From<AllocError> for TableFault {
    ghost from_gives = { λ _ e. e ≡ NoMemory };

    fn from(_e: AllocError) -> TableFault {
        TableFault::NoMemory
    }
}
