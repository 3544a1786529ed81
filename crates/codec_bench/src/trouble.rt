//! Why nothing is measured.

use content_check::ContentFault;
use std::alloc::AllocError;
use std::io;
use thrift_idl::DefFault;
use typed_reading::ValueFault;

/// Why nothing is measured.
#[derive(Debug, Drop)]
pub(crate) enum Trouble {
    Definition(DefFault),
    Value(ValueFault),
    Content(ContentFault),
    System(io::Error),
    /// A text is too long to be a definition.
    Long,
    NoMemory,
}

impl From<DefFault> for Trouble {
    fn from(fault: DefFault) -> Trouble {
        Trouble::Definition(fault)
    }
}

impl From<ValueFault> for Trouble {
    fn from(fault: ValueFault) -> Trouble {
        Trouble::Value(fault)
    }
}

impl From<ContentFault> for Trouble {
    fn from(fault: ContentFault) -> Trouble {
        Trouble::Content(fault)
    }
}

impl From<io::Error> for Trouble {
    fn from(error: io::Error) -> Trouble {
        Trouble::System(error)
    }
}

impl From<AllocError> for Trouble {
    fn from(_e: AllocError) -> Trouble {
        Trouble::NoMemory
    }
}
