//! Why nothing is measured.

use evolve::BindFault;
use file_check::OpenFault;
use path_text::PathFault;
use std::alloc::AllocError;
use std::io;
use thrift_idl::DefFault;

/// Why nothing is measured.
#[derive(Debug, Drop)]
pub(crate) enum Trouble {
    Definition(DefFault),
    File(OpenFault),
    Binding(BindFault),
    Path(PathFault),
    System(io::Error),
    /// A text or a file is too long.
    Long,
    /// A part is not there, or has no items.
    Absent,
    NoMemory,
}

impl From<DefFault> for Trouble {
    fn from(fault: DefFault) -> Trouble {
        Trouble::Definition(fault)
    }
}

impl From<OpenFault> for Trouble {
    fn from(fault: OpenFault) -> Trouble {
        Trouble::File(fault)
    }
}

impl From<BindFault> for Trouble {
    fn from(fault: BindFault) -> Trouble {
        Trouble::Binding(fault)
    }
}

impl From<PathFault> for Trouble {
    fn from(fault: PathFault) -> Trouble {
        Trouble::Path(fault)
    }
}

impl From<io::Error> for Trouble {
    fn from(error: io::Error) -> Trouble {
        Trouble::System(error)
    }
}

impl From<AllocError> for Trouble {
    fn from(_e: AllocError) -> Trouble {
        Trouble::NoMemory
    }
}
